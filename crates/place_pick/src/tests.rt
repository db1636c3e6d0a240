use super::*;
use std::process::Abort;
use std::test::Fail;

// The set of these processors.
fn cpus<R: Abort>(rt: &R, numbers: &[CpuNo]) -> CpuMask {
    let mut mask = CpuMask::none();
    for c in numbers {
        assert!(rt; *c < 16);
        mask = mask.with(*c);
    }
    mask
}

#[test]
fn a_processor_is_allowed_by_the_pointer_and_by_the_set_that_counts(
    rt: HostRuntime,
) -> Result<(), Fail> {
    let (all, even, one) = (cpus(&rt, &[0, 1, 2]), cpus(&rt, &[0, 2]), cpus(&rt, &[1]));
    // the processor, the allowed pointer, migration-disabled or not, active, online: the answer
    let cases = [
        (1, one, false, all, all, true),
        // Not in the pointer.
        (0, one, false, all, all, false),
        // Any other task needs the processor active, online or not.
        (1, one, false, all, even, true),
        (1, one, false, even, all, false),
        // A migration-disabled one needs it online, active or not.
        (1, one, true, even, all, true),
        (1, one, true, all, even, false),
        // A number past all processors.
        (4_000_000_000, all, false, all, all, false),
    ];
    for (c, cpus_ptr, disabled, active, online, expected) in cases {
        assert_eq!(rt; allowed(c, &cpus_ptr, disabled, &active, &online), expected);
    }
    Ok(())
}

#[test]
fn the_last_processor_is_kept_and_else_the_lowest_is_taken(rt: HostRuntime) -> Result<(), Fail> {
    let (all, even, one) = (cpus(&rt, &[0, 1, 2]), cpus(&rt, &[0, 2]), cpus(&rt, &[1]));
    let (ends, top, none) = (cpus(&rt, &[0, 15]), cpus(&rt, &[1, 15]), cpus(&rt, &[]));
    // the last processor, the allowed pointer, migration-disabled or not, active, online: the answer
    let cases = [
        // The last processor isn't in the pointer.
        (1, even, false, all, all, Some(0)),
        // It is, and a lower one is too.
        (2, even, false, all, all, Some(2)),
        // It is in the pointer and online, but not active.
        (1, all, false, even, all, Some(0)),
        // It counts for a migration-disabled task all the same.
        (1, all, true, even, all, Some(1)),
        // The lowest of the pointer isn't active, and the lowest that is active isn't in the pointer.
        (0, top, false, ends, all, Some(15)),
        // A migration-disabled task whose last processor isn't online goes to one that is.
        (1, all, true, all, even, Some(0)),
        // No processor of the pointer is active; or, for a migration-disabled task, online.
        (1, one, false, even, all, None),
        (1, one, true, all, even, None),
        (0, none, false, all, all, None),
        // A number past all processors.
        (4_000_000_000, even, false, all, all, Some(0)),
    ];
    for (prev, cpus_ptr, disabled, active, online, expected) in cases {
        assert_eq!(rt;
            select(prev, &cpus_ptr, disabled, &active, &online),
            expected
        );
    }
    Ok(())
}

#[test]
fn the_mask_is_widened_only_where_no_processor_is_allowed(rt: HostRuntime) -> Result<(), Fail> {
    let (all, even, one) = (cpus(&rt, &[0, 1, 2]), cpus(&rt, &[0, 2]), cpus(&rt, &[1]));
    let (more, none) = (cpus(&rt, &[0, 1, 2, 3]), cpus(&rt, &[]));
    // the last processor, the allowed pointer, migration-disabled or not, active, online, possible: the answer
    let cases = [
        // Nothing is allowed.
        (1, one, false, even, even, all, (0, Some(all))),
        // Possible processors needn't be active or online.
        (1, none, false, even, all, more, (0, Some(more))),
        // The last processor is allowed, or another.
        (2, even, false, all, all, all, (2, None)),
        (1, even, false, all, all, all, (0, None)),
        // A migration-disabled task stays where it is online.
        (1, one, true, even, all, all, (1, None)),
    ];
    for (prev, cpus_ptr, disabled, active, online, possible, expected) in cases {
        assert!(rt; active.contains(0));
        assert!(rt; !disabled || allowed(prev, &cpus_ptr, disabled, &active, &online));
        assert_eq!(rt;
            fallback(prev, &cpus_ptr, disabled, &active, &online, &possible),
            expected
        );
    }
    Ok(())
}
