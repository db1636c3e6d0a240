// Plain queues in place of rings, and a step in place of a body's turn.
use handoff_data::{Line, NoMemory, is_line};
use pipe_bodies::Item;
use std::alloc::Global;
use std::collections::VecDeque;

// What a body of a source or a `cat` has. A source finds its lines on its right side.
#[derive(Drop)]
struct Stage {
    left: VecDeque<Item>,
    right: VecDeque<Item>,
    reads_left: bool,
    held: Option<Item>,
    ended: bool,
    // The stage that reads it, on this side.
    reader: usize,
    feeds_left: bool,
}

/// Lines of this text. Answers `NoMemory` where memory runs out.
pub fn texts(alloc: Global, count: u32, text: &str) -> Result<VecDeque<Item>, NoMemory> {
    let mut texts = VecDeque::new(alloc);
    for _ in 0..count {
        let bytes = Vec::from_slice(alloc, text.as_bytes())?;
        if is_line(bytes.as_slice()) {
            texts.push_back(Item::Text(Line::new(bytes)))?;
        }
    }
    Ok(texts)
}

/// Moves lines through so many `cat`, each of which reads the one before it and a source without lines, through queues
/// of this room, in rounds, until all have ended. Answers the lines as they came out. As a body does, a stage takes an
/// item in one step and puts it out in another. Answers `NoMemory` where memory runs out.
pub fn run(
    alloc: Global,
    texts: VecDeque<Item>,
    cats: u32,
    room: u32,
) -> Result<VecDeque<Line>, NoMemory> {
    let mut chain = Vec::new(alloc);
    chain.push(source(alloc, texts, 2, true)?)?;
    for _ in 0..cats {
        let reader = chain.len().saturating_add(1);
        chain.push(source(alloc, VecDeque::new(alloc), reader, false)?)?;
        chain.push(Stage {
            left: VecDeque::with_capacity(alloc, room as usize)?,
            right: VecDeque::with_capacity(alloc, room as usize)?,
            reads_left: true,
            held: None,
            ended: false,
            reader: reader.saturating_add(2),
            feeds_left: true,
        })?;
    }
    let mut out = VecDeque::new(alloc);
    for _ in 0..u64::MAX {
        for index in 0..chain.len() {
            step(&mut chain, index, room as usize, &mut out)?;
        }
        if chain.iter().all(|stage| stage.ended) {
            return Ok(out);
        }
    }
    Ok(out)
}

fn source(
    alloc: Global,
    texts: VecDeque<Item>,
    reader: usize,
    feeds_left: bool,
) -> Result<Stage, NoMemory> {
    let mut texts = texts;
    texts.push_back(Item::End)?;
    Ok(Stage {
        left: VecDeque::new(alloc),
        right: texts,
        reads_left: false,
        held: None,
        ended: false,
        reader,
        feeds_left,
    })
}

fn step(
    chain: &mut Vec<Stage>,
    index: usize,
    room: usize,
    out: &mut VecDeque<Line>,
) -> Result<(), NoMemory> {
    let Some(stage) = chain.get_mut(index) else {
        return Ok(());
    };
    if let Some(item) = stage.held.take() {
        return put(chain, index, item, room, out);
    }
    if stage.ended {
        return Ok(());
    }
    if stage.reads_left {
        match stage.left.pop_front() {
            Some(Item::End) => stage.reads_left = false,
            item => stage.held = item,
        }
    } else {
        stage.held = stage.right.pop_front();
    }
    Ok(())
}

// Puts an item of a stage out, or holds it again where there is no room.
fn put(
    chain: &mut Vec<Stage>,
    index: usize,
    item: Item,
    room: usize,
    out: &mut VecDeque<Line>,
) -> Result<(), NoMemory> {
    let Some(stage) = chain.get(index) else {
        return Ok(());
    };
    let (reader, feeds_left) = (stage.reader, stage.feeds_left);
    let is_end = matches!(item, Item::End);
    if let Some(reader) = chain.get_mut(reader) {
        let queue = if feeds_left {
            &mut reader.left
        } else {
            &mut reader.right
        };
        if queue.len() >= room {
            if let Some(stage) = chain.get_mut(index) {
                stage.held = Some(item);
            }
            return Ok(());
        }
        queue.push_back(item)?;
    } else if let Item::Text(line) = item {
        out.push_back(line)?;
    }
    if let Some(stage) = chain.get_mut(index) {
        stage.ended = is_end;
    }
    Ok(())
}
