//! The table of the actions of a rollout.

ghost use Rattle.std.specs.Prelude.{◌≡◌, ◌++◌, string_bytes, IfOk, IfErr, OnOk};
ghost use Rattle.rollout_model.specs.declared.refusal.Refusal.TheVariants.{NoMemory};
ghost use Rattle.desk_files.specs.ActionTables.{action_line, table_text};

use rollout_model::{Action, Refusal};
use std::alloc::{AllocError, Global};

/// Pushes a cell and what ends it.
fn push_cell(text: &mut String, cell: &str, end: &str) -> Result<(), AllocError>
    ensures { OnOk result (string_bytes text.new ≡ string_bytes text.old ++ cell.now ++ end.now) }
{
    text.push_str(cell)?;
    text.push_str(end)?;
    Ok(())
}

fn push_action(alloc: Global, text: &mut String, action: &Action) -> Result<(), AllocError>
    ensures { OnOk result (string_bytes text.new ≡ string_bytes text.old ++ action_line action.now) }
{
    let number = action.number.get();
    let group = action.group;
    let number = format!(in alloc; "{number}")?;
    let group = format!(in alloc; "{group}")?;
    push_cell(text, number.as_str(), ",")?;
    push_cell(text, action.target.as_str(), ",")?;
    push_cell(text, group.as_str(), ",")?;
    push_cell(text, action.word.as_str(), "\n")?;
    Ok(())
}

fn table_text(alloc: Global, actions: &[Action]) -> Result<String, AllocError>
    ensures { IfOk result (λ text. string_bytes text ≡ table_text actions.now) }
{
    let mut text = String::new(alloc);
    text.push_str("action,controllerid,group,state\n")?;
    for action in actions {
        push_action(alloc, &mut text, action)?;
    }
    Ok(text)
}

/// The table of the actions of a rollout as CSV: a header, and a record for each action, each ended by a line feed.
/// Refused for want of memory alone.
pub fn actions_csv(alloc: Global, actions: &[Action]) -> Result<String, Refusal>
    ensures text { IfOk result (λ text. string_bytes text ≡ table_text actions.now) }
    ensures memory { IfErr result (λ e. e ≡ NoMemory) }
{
    let text = table_text(alloc, actions)?;
    Ok(text)
}
