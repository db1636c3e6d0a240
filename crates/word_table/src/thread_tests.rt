//! Two seats of one table, each in a thread.
ghost use Rattle.std.specs.Prelude.{◌<◌, [], false};
ghost use Rattle.word_table.specs.Views.{IsOf, IsSame};

use crate::{Kept, Token, Words, WorksLock, give, peek, take};
use handoff_data::{NoMemory, Shape};
use std::alloc::Global;
use std::sync::Wait;
use std::test::Fail;
use std::thread::{Threads, join};

#[derive(Drop)]
struct Still;

impl Kept for Still {
    ghost lasting = { λ _. [] };

    ghost ended = { λ _. false };
}

// Takes the works of the first processor and gives them back.
fn turn<R: Wait>(rt: &R, words: &Words<Still>, token: &mut Token)
    requires of { IsOf words.now token.old }
    requires cpus { 0 < words.now.shape.cpus }
    ensures { IsSame token.old token.new }
{
    let taken = take::<Still, WorksLock, R>(rt, words, token, 0);
    give::<Still, WorksLock>(words, token, 0, taken);
}

fn work<R: Wait>(rt: &R, words: &Words<Still>, mut token: Token) -> Token
    requires of { IsOf words.now token }
    requires cpus { 0 < words.now.shape.cpus }
    ensures { IsSame token result }
{
    for _ in 0..1000 {
        turn(rt, words, &mut token);
    }
    token
}

// Two seats, each in a thread. It returns the lock's word, None where there were no two tokens.
fn run<R: Threads + Wait + Sync>(rt: &R, alloc: Global) -> Result<Option<u64>, NoMemory> {
    let mut bodies = Vec::with_capacity(alloc, 1)?;
    bodies.push_reserved(Still);
    let shape = Shape {
        cpus: 2,
        caches: 1,
        tasks: 1,
        conds: 1,
        agents: 0,
    };
    let (made, mut tokens) = Words::new(alloc, &shape, bodies)?;
    let words = &made;
    let Some(second) = tokens.pop() else {
        return Ok(None);
    };
    let Some(first) = tokens.pop() else {
        return Ok(None);
    };
    join(rt, || work(rt, words, first), || work(rt, words, second));
    Ok(Some(peek(words, 0, 25)))
}

#[test]
fn two_seats_share_a_lock(rt: HostRuntime) -> Result<(), Fail> {
    let Ok(word) = run(&rt, rt.alloc()) else {
        return Err(Fail::from("no memory"));
    };
    assert!(rt; word == Some(0));
    Ok(())
}
