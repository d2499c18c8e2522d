//! Items by text, as `Up MRd n=0 tag=0 addr=FFC len=2; Down Ack 0`.
use crate::bring_up::Credits;
use crate::dllp_row;
use crate::notation::Notation;
use crate::tlp_row::TlpRow;
use pl_base::Dir;
use pl_dllp::Dllp;
use std::alloc::AllocError;

/// Why a text isn't taken.
#[derive(Clone, Copy, Debug, PartialEq, Eq)]
pub enum RowError {
    /// This row of the text, counted from 1, isn't understood.
    Row(usize),
    Memory,
}

impl From<AllocError> for RowError {
    fn from(_error: AllocError) -> RowError {
        RowError::Memory
    }
}

/// What a row says.
enum Row {
    BringUp(Credits),
    LinkDown,
    Gap,
    Dllp(Dir, Dllp),
    Tlp(Dir, TlpRow),
}

impl Notation {
    /// The items of these rows, one behind the other. After an error the rows before it stand.
    ///
    /// Rows are parted by `;`. A row may begin with the number of its item. `B0` is a bring-up with
    /// unlimited credits and `B1` one with limited credits, `B0 with Down P 127/0` one that differs
    /// for a class. Then there are `link down`, `gap` and, behind `Down` or `Up`, a DLLP or a TLP:
    ///
    /// - `Ack 5`, `Nak 5`: the sequence number.
    /// - `UpdateFC-P 33/32`, and so `InitFC1` and `InitFC2`, `NP` and `Cpl`: header and data
    ///   credits; behind them `HdrScale 10`, `DataScale 10` and `VC 1`.
    /// - the kind of a TLP, then its fields; those that aren't given are 0. Decimal are `n`
    ///   (sequence number), `len` (DW), `bc` (Byte Count), `TC`, `attr`; hexadecimal `req` (0100
    ///   where it isn't given), `tag`, `addr`, `la` (Lower Address), `code`, `be` (First/Last),
    ///   `data` (the first byte of the data), `prefix`, `digest`; binary `AT` and `routing`;
    ///   `status` is SC, UR, CRS or CA. `4DW`, `TH`, `BCM`, `nullified` and `spoiled` stand alone.
    pub fn rows(&mut self, text: &str) -> Result<(), RowError> {
        let mut count: usize = 0;
        for row in text.split(';') {
            count = count.saturating_add(1);
            if !self.row(row)? {
                return Err(RowError::Row(count));
            }
        }
        Ok(())
    }

    /// Adds what a row says, and says whether it is understood.
    fn row(&mut self, text: &str) -> Result<bool, AllocError> {
        let words: Vec<&str> = text.split_whitespace().collect(self.allocator())?;
        if words.is_empty() {
            return Ok(true);
        }
        match parse(&words, self.next()) {
            None => Ok(false),
            Some(Row::LinkDown) => self.link_down().map(|()| true),
            Some(Row::Gap) => self.gap().map(|()| true),
            Some(Row::BringUp(credits)) => credits.add_to(self),
            Some(Row::Dllp(dir, dllp)) => dllp_row::add_to(self, dir, &dllp),
            Some(Row::Tlp(dir, row)) => row.add_to(self, dir),
        }
    }
}

/// What these words say, where the next item has this number.
fn parse(words: &[&str], next: u64) -> Option<Row> {
    match behind_number(words, next)? {
        ["link", "down"] => Some(Row::LinkDown),
        ["gap"] => Some(Row::Gap),
        ["B0", rest @ ..] => Credits::unlimited().with(rest).map(Row::BringUp),
        ["B1", rest @ ..] => Credits::limited().with(rest).map(Row::BringUp),
        ["Down", name, rest @ ..] => packet(Dir::Down, name, rest),
        ["Up", name, rest @ ..] => packet(Dir::Up, name, rest),
        _ => None,
    }
}

/// The words behind the number of the item, where they begin with one. None where it is another
/// item's.
fn behind_number<'a>(words: &'a [&'a str], next: u64) -> Option<&'a [&'a str]> {
    let (first, rest) = words.split_first()?;
    match first.parse::<u64>() {
        Ok(number) if number == next => Some(rest),
        Ok(_) => None,
        Err(_) => Some(words),
    }
}

/// The packet of this name and these fields.
fn packet(dir: Dir, name: &str, fields: &[&str]) -> Option<Row> {
    if let Some(dllp) = dllp_row::parse(name, fields) {
        return Some(Row::Dllp(dir, dllp));
    }
    let row = TlpRow::parse(name, fields)?;
    Some(Row::Tlp(dir, row))
}
