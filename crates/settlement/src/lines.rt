ghost use Rattle.std.specs.Prelude.{◌≡◌, ◌++◌, map, IfOk, OnOk};
ghost use Rattle.settlement.specs.declared.line.Line.TheVariants.{Wrong};
ghost use Rattle.settlement.specs.Lines.{is_idle, place_line, StandingLines, Listed};

use crate::line::Line;
use ledger::row::Row;
use ledger::standing::{Standing, rank_members};
use ledger::totals::Ledger;
use ranking::places::each;
use settling::fault::Noted;
use std::alloc::{AllocError, Global};

// Whether a member neither bought nor sold.
fn is_idle(row: &Row) -> bool
    ensures { result ≡ is_idle row.now }
{
    row.bought == 0 && row.sold == 0
}

// Adds the line of a place of the standing, unless its member is idle.
fn push_place(lines: &mut Vec<Line>, rank: usize, place: Option<Standing>) -> Result<(), AllocError>
    ensures { OnOk result (lines.new.items ≡ lines.old.items ++ place_line rank place) }
{
    match place {
        Some(standing) if !is_idle(&standing.row) => lines.push(Line::Member(rank, standing))?,
        _ => {}
    }
    Ok(())
}

// Adds the lines of the members by rank, and of all together.
fn push_standing(lines: &mut Vec<Line>, ledger: &Ledger) -> Result<(), AllocError>
    ensures { OnOk result (StandingLines ledger.now.rows lines.old.items lines.new.items) }
{
    let board = rank_members(ledger);
    for (i, place) in each(&board) {
        push_place(lines, i + 1, place)?;
    }
    lines.push(Line::Total(ledger.sum()))?;
    Ok(())
}

// All lines of a settlement after its first: what went wrong, and how the members stand.
pub fn listing(heap: Global, notes: &[Noted], ledger: &Ledger) -> Result<Vec<Line>, AllocError>
    ensures { IfOk result (λ v. Listed notes.now ledger.now.rows v.items) }
{
    let mut lines = notes.iter().copied().map(Line::Wrong).collect(heap)?;
    push_standing(&mut lines, ledger)?;
    Ok(lines)
}
