//! Items that are all alike at first, in memory that is reserved once and touched block by block.
//!
//! A block of items is written when the first of them is. Until then it shares the first block, in
//! which nothing is ever written, so that an item is read the same way whether its block was begun
//! or not.
ghost use Rattle.std.specs.Prelude.{ℕ, ◌≡◌, ◌<◌, ◌≤◌, ◌+◌, ◌*◌, ◌/◌, [], ◌++◌, length};
ghost use Rattle.std.specs.Prelude.{get_or, replicate, set, IfOk};
ghost use Rattle.std.specs.Vec.{vec_len, vec_capacity};
ghost use Rattle.pl_index.specs.Blocks.{item_at, numbers, place, AreShifts, AreBlocks};
ghost use Rattle.pl_index.specs.Blocks.{AreUnbegun};

use std::alloc::{AllocError, Global};
use std::marker::Model;

/// How many items lie in a block.
const BLOCK: usize = 16;

/// So many items, of which those not written yet are all alike.
#[derive(Drop)]
pub(crate) struct Blocks<T: Copy> {
    // The first block, and then those that were begun, in the order in which they were.
    items: Vec<T>,
    // For each block how far on from the numbers of its items they lie, modulo 2^32.
    shifts: Vec<u32>,
    count: usize,
    blank: T,
}

impl<T: Copy> Model for Blocks<T> {
    ghost use Rattle.std.specs.Prelude.{List};
    ghost use Rattle.pl_index.specs.Blocks.{laid_out, numbers, IsReserved};

    ghost Value = { List T };

    ghost view = { λ b. laid_out b.blank b.items.items (numbers b.shifts.items) b.count };

    ghost invariant = { λ b. IsReserved b.blank b.items b.shifts.items b.count };
}

impl<T: Copy> Blocks<T> {
    /// So many items, at most 524,288, all of them `blank`.
    pub(crate) fn open(alloc: Global, count: usize, blank: T) -> Result<Blocks<T>, AllocError>
        requires few { count ≤ 524288 }
        ensures { IfOk result (λ blocks. blocks ≡ replicate count blank) }
    {
        let blocks = count.div_ceil(BLOCK);
        let mut items = Vec::with_capacity(alloc, BLOCK * (1 + blocks))?;
        push_block(&mut items, &blank);
        let mut shifts = Vec::with_capacity(alloc, blocks)?;
        push_shifts(&mut shifts, blocks);
        Ok(Blocks {
            items,
            shifts,
            count,
            blank,
        })
    }

    /// How many there are.
    pub(crate) fn len(&self) -> usize
        ensures { result ≡ length self.now }
    {
        self.count
    }

    /// One of them.
    pub(crate) fn at(&self, at: usize) -> &T
        requires { at < length self.now }
        ensures { result.now ≡ get_or self.now at result.now }
    {
        &self.items[place_of(&self.shifts, at)]
    }

    /// Writes one of them.
    pub(crate) fn set(&mut self, at: usize, item: T)
        requires { at < length self.old }
        ensures { self.new ≡ set self.old at item }
    {
        let place = own_place(&mut self.items, &mut self.shifts, &self.blank, at);
        self.items[place] = item;
    }

    /// Makes all of them `blank`, in a time that grows with their number.
    pub(crate) fn reset(&mut self, blank: T)
        ensures { self.new ≡ replicate (length self.old) blank }
    {
        let blocks = self.shifts.len();
        self.shifts.clear();
        push_shifts(&mut self.shifts, blocks);
        self.items.clear();
        push_block(&mut self.items, &blank);
        self.blank = blank;
    }
}

/// Where an item lies.
fn place_of(shifts: &Vec<u32>, at: usize) -> usize
    requires block { at / 16 < length shifts.now.items }
    requires shifts { AreShifts shifts.now.items }
    ensures { result ≡ place (numbers shifts.now.items) at }
{
    (at as u32).wrapping_add(shifts[at / BLOCK]) as usize
}

/// Where an item may be written, in a block that is begun for it where it has none of its own.
fn own_place<T: Copy>(items: &mut Vec<T>, shifts: &mut Vec<u32>, blank: &T, at: usize) -> usize
    requires blocks { AreBlocks blank.now items.old.items (numbers shifts.old.items) }
    requires shifts { AreShifts shifts.old.items }
    requires block { at / 16 < length shifts.old.items }
    requires room { 16 * (1 + length shifts.old.items) ≤ vec_capacity items.old }
    ensures blocks { AreBlocks blank.now items.new.items (numbers shifts.new.items) }
    ensures shifts { AreShifts shifts.new.items }
    ensures own { 0 < get_or (numbers shifts.new.items) (at / 16) 0 }
    ensures place { result ≡ place (numbers shifts.new.items) at }
    ensures same { (i : ℕ) → item_at blank.now items.new.items (numbers shifts.new.items) i
        ≡ item_at blank.now items.old.items (numbers shifts.old.items) i }
    ensures count { length shifts.new.items ≡ length shifts.old.items }
    ensures room { vec_capacity items.new ≡ vec_capacity items.old }
{
    let place = place_of(shifts, at);
    if place >= BLOCK {
        return place;
    }
    begin(items, shifts, blank, at / BLOCK);
    place_of(shifts, at)
}

/// Begins a block that was not begun yet.
#[cold]
#[inline(never)]
fn begin<T: Copy>(items: &mut Vec<T>, shifts: &mut Vec<u32>, blank: &T, block: usize)
    requires blocks { AreBlocks blank.now items.old.items (numbers shifts.old.items) }
    requires shifts { AreShifts shifts.old.items }
    requires block { block < length shifts.old.items }
    requires new { get_or (numbers shifts.old.items) block 0 ≡ 0 }
    requires room { 16 * (1 + length shifts.old.items) ≤ vec_capacity items.old }
    ensures blocks { AreBlocks blank.now items.new.items (numbers shifts.new.items) }
    ensures shifts { AreShifts shifts.new.items }
    ensures own { 0 < get_or (numbers shifts.new.items) block 0 }
    ensures same { (i : ℕ) → item_at blank.now items.new.items (numbers shifts.new.items) i
        ≡ item_at blank.now items.old.items (numbers shifts.old.items) i }
    ensures count { length shifts.new.items ≡ length shifts.old.items }
    ensures room { vec_capacity items.new ≡ vec_capacity items.old }
{
    shifts[block] = (items.len() as u32).wrapping_sub((BLOCK * block) as u32);
    push_block(items, blank);
}

/// Adds a block of blank items.
fn push_block<T: Copy>(items: &mut Vec<T>, blank: &T)
    requires room { vec_len items.old + 16 ≤ vec_capacity items.old }
    ensures items { items.new.items ≡ items.old.items ++ replicate 16 blank.now }
    ensures room { vec_capacity items.new ≡ vec_capacity items.old }
{
    for _pushed in 0..BLOCK {
        items.push_reserved(*blank);
    }
}

/// Adds the shifts of so many blocks, none of which was begun, where there are none yet.
fn push_shifts(shifts: &mut Vec<u32>, blocks: usize)
    requires none { shifts.old.items ≡ [] }
    requires few { blocks ≤ 32768 }
    requires room { blocks ≤ vec_capacity shifts.old }
    ensures { AreUnbegun shifts.new.items blocks }
{
    for block in 0..blocks {
        shifts.push_reserved(((BLOCK * block) as u32).wrapping_neg());
    }
}
