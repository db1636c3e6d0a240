use super::*;
use std::test::Fail;

#[test]
fn a_pick_is_refused_while_the_task_is_busy(rt: HostRuntime) -> Result<(), Fail> {
    let mut table = Table::new(rt.alloc(), 1)?;
    assert!(rt; table.len() == 1);
    table
        .apply(0, Entry::New { t: 0, m: 1, c: 0 })
        .map_err(|_| "new")?;
    table
        .apply(0, Entry::Pick { t: 0, n: 1, c: 0 })
        .map_err(|_| "pick")?;
    let busy = Place {
        q: Q::On(0),
        b: Some(0),
    };
    let again = Entry::Pick { t: 0, n: 2, c: 0 };
    let refused = table.apply(0, again);
    assert!(rt;
        refused
            == Err(Illegal {
                entry: again,
                place: busy
            })
    );
    assert!(rt; table.len() == 1);
    assert!(rt; table.place(0) == busy);
    Ok(())
}
