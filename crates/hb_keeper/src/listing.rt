//! Which games has each member played, without a walk over all games?

ghost use Rattle.std.specs.Prelude.{◌≡◌, List, ℕ, [], length, bytes_eq, IfOk, OnOk, OnErr};
ghost use Rattle.std.specs.List.{list_any};
ghost use Rattle.hb_keeper.specs.Listing.{IsListed, ListedFor, ListedForSome, lines_for, with_line};

use crate::{GameRow, Key, Line, Lines};
use hb_io::Name;
use std::alloc::{AllocError, Global};
use std::collections::HashMap;

/// The lines of the first games, listed under each player's name.
///
/// A game is kept first and listed then. If there is no memory to list it, it is listed for some of
/// its players, and [`Listing::catch_up`] goes on from there.
#[derive(Drop)]
pub(crate) struct Listing {
    pub(crate) alloc: Global,
    pub(crate) lists: HashMap<Name, Lines>,
    pub(crate) count: usize,
}

impl Listing {
    pub(crate) fn new(alloc: Global) -> Self
        ensures { IsListed [] result.lists result.count }
    {
        Listing {
            alloc,
            lists: HashMap::new(alloc),
            count: 0,
        }
    }

    /// Lists the games that are not listed yet.
    pub(crate) fn catch_up(&mut self, rows: &[(Key, GameRow)]) -> Result<(), AllocError>
        requires { IsListed rows.now self.old.lists self.old.count }
        ensures listed { IsListed rows.now self.new.lists self.new.count }
        ensures all { OnOk result (self.new.count ≡ length rows.now) }
    {
        while self.count < rows.len() {
            let row = &rows[self.count].1;
            let line = row.line(self.count as u64 + 1);
            add_line_for_each(&mut self.lists, self.alloc, row.names.as_slice(), line)?;
            self.count += 1;
        }
        Ok(())
    }

    /// The lines that are listed for a name.
    pub(crate) fn lines(&self, name: &Name) -> Result<Lines, AllocError>
        ensures { IfOk result (λ lines. lines ≡ lines_for self.now.lists name.now) }
    {
        match self.lists.get(name) {
            Some(lines) => lines.clone(),
            None => Ok(Lines::new(self.alloc)),
        }
    }
}

/// Adds a line under each of these names that does not end with it.
fn add_line_for_each(
    lists: &mut HashMap<Name, Lines>,
    alloc: Global,
    names: &[Name],
    line: Line,
) -> Result<(), AllocError>
    ensures ok { OnOk result (ListedFor (λ name. list_any (bytes_eq name) names.now)
        lists.old lists.new line) }
    ensures err { OnErr result (ListedForSome (λ name. list_any (bytes_eq name) names.now)
        lists.old lists.new line) }
{
    for name in names {
        add_line(lists, alloc, name, line)?;
    }
    Ok(())
}

/// Adds a line under a name, if its list does not end with it.
fn add_line(
    lists: &mut HashMap<Name, Lines>,
    alloc: Global,
    name: &Name,
    line: Line,
) -> Result<(), AllocError>
    ensures ok { OnOk result (ListedFor (bytes_eq name.now) lists.old lists.new line) }
    ensures err { OnErr result ((q : List ℕ) → lines_for lists.new q ≡ lines_for lists.old q) }
{
    if let Some(lines) = lists.get_mut(name) {
        return add_to(lines, line);
    }
    let mut lines = Lines::new(alloc);
    lines.push(line)?;
    lists.insert(*name, lines)?;
    Ok(())
}

fn add_to(lines: &mut Lines, line: Line) -> Result<(), AllocError>
    ensures ok { OnOk result (lines.new ≡ with_line lines.old line) }
    ensures err { OnErr result (lines.new ≡ lines.old) }
{
    match lines.as_slice().last() {
        Some(last) if last.id == line.id => Ok(()),
        _ => lines.push(line),
    }
}
