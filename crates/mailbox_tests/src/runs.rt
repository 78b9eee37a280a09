//! Whole runs on real threads.
use crate::reading::{are_sent, fills};
use crate::scripts::script;
use mail_run::mail_run;
use std::alloc::Global;
use std::test::Fail;

#[test]
fn without_a_collector_62_of_63_lines_fill_64_cells(rt: HostRuntime) -> Result<(), Fail> {
    let lines = script(rt.alloc(), 63, 1, false)?;
    let run = mail_run(rt.alloc(), &rt, &[lines], 64, 0)?;
    assert_eq!(rt; run.sent.len(), 1);
    assert!(rt; fills(&run, 62));
    Ok(())
}

#[test]
fn each_item_of_two_senders_beside_the_collector_is_its_line(rt: HostRuntime) -> Result<(), Fail> {
    let scripts = [
        script(rt.alloc(), 500, 1000, true)?,
        script(rt.alloc(), 500, 2000, true)?,
    ];
    let run = mail_run(rt.alloc(), &rt, &scripts, 64, 40)?;
    assert!(rt; are_sent(&scripts[0], &scripts[1], &run));
    Ok(())
}
