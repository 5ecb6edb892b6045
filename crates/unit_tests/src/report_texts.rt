//! The report of a rollout and the table of its actions.

use desk_files::{actions_csv, rollout_report};
use rollout_model::{
    Action, ActionNo, ActionWord, ControllerId, FilterText, Group, GroupWord, Rollout, RolloutNo,
    RolloutReport, RolloutWord, SetNo, Text,
};
use std::alloc::Global;
use std::test::Fail;

fn group(number: u32, size: u32, ok: u32, word: GroupWord) -> Group {
    Group {
        number,
        size,
        ok,
        bad: 0,
        gone: 0,
        success: 50,
        error: 100,
        word,
    }
}

/// A running rollout; `None` for want of memory.
fn spring(alloc: Global) -> Option<Rollout> {
    let number = RolloutNo::new(1)?;
    let set_number = SetNo::new(1)?;
    let name = Text::read(alloc, "spring").ok()??;
    let filter_text = FilterText::from_text(alloc, "name==*").ok()?;
    Some(Rollout {
        number,
        name,
        set_number,
        filter_text,
        word: RolloutWord::Running,
        groups: 3,
        targets: 10,
    })
}

/// Its report; `None` for want of memory.
fn report_of(alloc: Global, groups: &[Group]) -> Option<String> {
    let groups = Vec::from_slice(alloc, groups).ok()?;
    let rollout = spring(alloc)?;
    rollout_report(alloc, &RolloutReport { rollout, groups }).ok()
}

#[test]
fn the_worked_report(rt: HostRuntime) -> Result<(), Fail> {
    let groups = [
        group(1, 3, 2, GroupWord::Running),
        group(2, 3, 0, GroupWord::Running),
        group(3, 4, 0, GroupWord::Scheduled),
    ];
    let text = report_of(rt.alloc(), &groups).ok_or("report")?;
    assert_eq!(rt;
        text.as_str(),
        "rollout 1 spring\nstate running\ngroup  size    ok   bad  gone  open state\n    \
         1     3     2     0     0     1 running\n    2     3     0     0     0     3 running\n    \
         3     4     0     0     0     4 scheduled\ntotal    10     2     0     0     8 running\n"
    );
    Ok(())
}

#[test]
fn numbers_wider_than_their_columns(rt: HostRuntime) -> Result<(), Fail> {
    let groups = [
        group(123_456, 4_294_967_295, 0, GroupWord::Error),
        group(2, 4_294_967_295, 1, GroupWord::Finished),
    ];
    let text = report_of(rt.alloc(), &groups).ok_or("report")?;
    assert_eq!(rt;
        text.as_str(),
        "rollout 1 spring\nstate running\ngroup  size    ok   bad  gone  open state\n\
         1234564294967295     0     0     04294967295 error\n    24294967295     1     0     04294967294 finished\n\
         total8589934590     1     0     08589934589 running\n"
    );
    Ok(())
}

fn action(number: u32, id: &str, word: ActionWord) -> Option<Action> {
    let number = ActionNo::new(number)?;
    let rollout = RolloutNo::new(1)?;
    let target = ControllerId::read(id)?;
    Some(Action {
        number,
        rollout,
        group: 1,
        target,
        word,
    })
}

#[test]
fn a_table_of_two_actions(rt: HostRuntime) -> Result<(), Fail> {
    let first = action(11, "dev-01", ActionWord::Finished).ok_or("action")?;
    let second = action(12, "dev-02", ActionWord::Running).ok_or("action")?;
    let text = actions_csv(rt.alloc(), &[first, second])
        .ok()
        .ok_or("table")?;
    assert_eq!(rt;
        text.as_str(),
        "action,controllerid,group,state\n11,dev-01,1,finished\n12,dev-02,1,running\n"
    );
    Ok(())
}

#[test]
fn a_table_of_no_actions(rt: HostRuntime) -> Result<(), Fail> {
    let text = actions_csv(rt.alloc(), &[]).ok().ok_or("table")?;
    assert_eq!(rt; text.as_str(), "action,controllerid,group,state\n");
    Ok(())
}
