use super::*;
use std::process::Abort;
use std::test::Fail;

fn run(workers: u32, trace: bool, plain: bool) -> Words {
    Words::Run(RunOptions {
        workers,
        trace,
        plain,
    })
}

// Reads the texts as words, and compares the answer.
fn expect_reading<R: Abort + AllocGlobal>(
    rt: &R,
    texts: &[&str],
    expected: Option<Words>,
) -> Result<(), Fail> {
    let mut words = Vec::new(rt.alloc());
    for text in texts {
        words.push(String::from_str(rt.alloc(), text)?)?;
    }
    let reading = read_words(rt.alloc(), words.as_slice())?;
    assert_eq!(rt; reading, expected, "{texts:?}");
    Ok(())
}

#[test]
fn commands_are_read(rt: HostRuntime) -> Result<(), Fail> {
    expect_reading(&rt, &["run"], Some(run(4, false, false)))?;
    expect_reading(&rt, &["plan"], Some(Words::Plan))?;
    expect_reading(&rt, &["check"], Some(Words::Check))
}

#[test]
fn options_are_read_in_any_order(rt: HostRuntime) -> Result<(), Fail> {
    expect_reading(&rt, &["run", "--trace"], Some(run(4, true, false)))?;
    expect_reading(&rt, &["run", "--plain"], Some(run(4, false, true)))?;
    expect_reading(
        &rt,
        &["run", "--workers=3", "--trace"],
        Some(run(3, true, false)),
    )?;
    expect_reading(
        &rt,
        &["run", "--plain", "--workers", "3"],
        Some(run(3, false, true)),
    )?;
    expect_reading(
        &rt,
        &["run", "--workers", "1", "--plain", "--trace"],
        Some(run(1, true, true)),
    )?;
    expect_reading(
        &rt,
        &["run", "--trace", "--plain", "--workers=8"],
        Some(run(8, true, true)),
    )
}

#[test]
fn numbers_are_1_to_16(rt: HostRuntime) -> Result<(), Fail> {
    expect_reading(&rt, &["run", "--workers=03"], Some(run(3, false, false)))?;
    expect_reading(
        &rt,
        &["run", "--workers", "16"],
        Some(run(16, false, false)),
    )?;
    expect_reading(
        &rt,
        &["run", "--workers", "0000000016"],
        Some(run(16, false, false)),
    )?;
    for text in [
        "0",
        "17",
        "+3",
        "-3",
        " 3",
        "3 ",
        "",
        "3x",
        "=3",
        "4294967299",
        "00000000003",
    ] {
        expect_reading(&rt, &["run", "--workers", text], None)?;
    }
    Ok(())
}

#[test]
fn other_words_have_no_reading(rt: HostRuntime) -> Result<(), Fail> {
    let empty: [&str; 0] = [];
    expect_reading(&rt, &empty, None)?;
    for word in [
        "",
        "--",
        "-",
        "Run",
        "gen",
        "help",
        "--help",
        "--version",
        "--trace",
    ] {
        expect_reading(&rt, &[word], None)?;
    }
    for word in [
        "",
        "-x",
        "--",
        "-",
        "run",
        "3",
        "--trac",
        "--trace=1",
        "--workers",
        "--help",
        "-h",
    ] {
        expect_reading(&rt, &["run", word], None)?;
    }
    expect_reading(&rt, &["plan", "x"], None)?;
    expect_reading(&rt, &["check", "--trace"], None)?;
    expect_reading(&rt, &["gen", "1000", "7"], None)?;
    expect_reading(&rt, &["--trace", "run"], None)?;
    expect_reading(&rt, &["run", "--trace", "--trace"], None)?;
    expect_reading(&rt, &["run", "--workers", "3", "--workers", "4"], None)?;
    expect_reading(&rt, &["run", "--workers", "3", "--workers=3"], None)?;
    expect_reading(&rt, &["run", "--workers", "--trace"], None)?;
    expect_reading(&rt, &["run", "--plain", "--trace", "--plain"], None)
}
