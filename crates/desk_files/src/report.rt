//! The report of a rollout.

ghost use Rattle.std.specs.Prelude.{◌≡◌, ◌++◌, codes, string_bytes, IfOk, IfErr, OnOk};
ghost use Rattle.std.specs.List.{flat_map};
ghost use Rattle.rollout_model.specs.declared.refusal.Refusal.TheVariants.{NoMemory};
ghost use Rattle.rollout_model.specs.StateTexts.{rollout_text};
ghost use Rattle.desk_files.specs.Counts.{counts_text, total_counts};
ghost use Rattle.desk_files.specs.Reports.{group_line, heading, report_text};

use crate::columns::push_right;
use crate::counts::{group_counts, push_counts, total_counts};
use rollout_model::{Group, Refusal, Rollout, RolloutReport, RolloutWord};
use std::alloc::{AllocError, Global};

/// Number, name and state of the rollout, and the names of the columns.
fn push_heading(alloc: Global, text: &mut String, rollout: &Rollout) -> Result<(), AllocError>
    ensures { OnOk result (string_bytes text.new ≡ string_bytes text.old ++ heading rollout.now) }
{
    let number = rollout.number.get();
    let number = format!(in alloc; "{number}")?;
    text.push_str("rollout ")?;
    text.push_str(number.as_str())?;
    text.push_str(" ")?;
    text.push_str(rollout.name.as_str())?;
    text.push_str("\nstate ")?;
    text.push_str(rollout.word.as_str())?;
    text.push_str("\ngroup  size    ok   bad  gone  open state\n")?;
    Ok(())
}

fn push_group(alloc: Global, text: &mut String, group: &Group) -> Result<(), AllocError>
    ensures { OnOk result (string_bytes text.new ≡ string_bytes text.old ++ group_line group.now) }
{
    push_right(alloc, text, 5, u128::from(group.number))?;
    push_counts(alloc, text, group_counts(group))?;
    text.push_str(" ")?;
    text.push_str(group.word.as_str())?;
    text.push_str("\n")?;
    Ok(())
}

fn push_groups(alloc: Global, text: &mut String, groups: &[Group]) -> Result<(), AllocError>
    ensures { OnOk result (string_bytes text.new ≡ string_bytes text.old ++ flat_map group_line groups.now) }
{
    for group in groups {
        push_group(alloc, text, group)?;
    }
    Ok(())
}

fn push_total(
    alloc: Global,
    text: &mut String,
    groups: &[Group],
    word: RolloutWord,
) -> Result<(), AllocError>
    ensures { OnOk result (string_bytes text.new
        ≡ string_bytes text.old ++ codes "total" ++ counts_text (total_counts groups.now) ++ codes " " ++ rollout_text word ++ codes "\n") }
{
    text.push_str("total")?;
    push_counts(alloc, text, total_counts(groups))?;
    text.push_str(" ")?;
    text.push_str(word.as_str())?;
    text.push_str("\n")?;
    Ok(())
}

fn report_text(alloc: Global, report: &RolloutReport) -> Result<String, AllocError>
    ensures { IfOk result (λ text. string_bytes text ≡ report_text report.now) }
{
    let mut text = String::new(alloc);
    push_heading(alloc, &mut text, &report.rollout)?;
    push_groups(alloc, &mut text, &report.groups)?;
    push_total(alloc, &mut text, &report.groups, report.rollout.word)?;
    Ok(text)
}

/// The report of a rollout: lines of text, each ended by a line feed. Refused for want of memory alone.
pub fn rollout_report(alloc: Global, report: &RolloutReport) -> Result<String, Refusal>
    ensures text { IfOk result (λ text. string_bytes text ≡ report_text report.now) }
    ensures memory { IfErr result (λ e. e ≡ NoMemory) }
{
    let text = report_text(alloc, report)?;
    Ok(text)
}
