//! What does a keeper in memory contain, and how does it find a game by key, by id and by player?

ghost use Rattle.std.specs.Prelude.{◌≡◌, [], ◌≤◌, length, if◌then◌else◌, None, Ok, Err, IfSome, IfOk, OnOk, OnErr};
ghost use Rattle.hb_keeper.specs.KeptGames.{open_run_on, put_on, put_by, id_of, row_of_id, with_row, lines_from, is_row};
ghost use Rattle.hb_keeper.specs.MemoryKeeper.{Works};
ghost use Rattle.hb_keeper.specs.declared.errors.KeepError.TheVariants.{KeyDiffers};

use crate::listing::Listing;
use crate::{GameRow, KeepError, Key, Lines};
use hb_io::Name;
use std::alloc::{AllocError, Global};
use std::collections::HashMap;
use std::marker::Model;

/// The greatest number of a run or an id.
const GREATEST: u64 = (1 << 63) - 1;

/// The number of the last run, and the games with their keys.
#[derive(Drop)]
pub(crate) struct Kept {
    last_run: u64,
    rows: Vec<(Key, GameRow)>,
    // What these rows give, so that no call walks over them.
    ids: HashMap<Key, u64>,
    listing: Listing,
}

impl Model for Kept {
    ghost use Rattle.hb_keeper.specs.KeptGames.{Content};

    ghost Value = { Content };

    ghost view = { λ k. record { last_run = k.last_run; rows = k.rows.items } };

    ghost use Rattle.hb_keeper.specs.Listing.{HasIds, IsListed};

    ghost invariant = { λ k. HasIds k.ids k.rows.items
        × IsListed k.rows.items k.listing.lists k.listing.count };
}

impl Kept {
    pub(crate) fn new(alloc: Global, last_run: u64) -> Self
        ensures { result ≡ record { last_run = last_run; rows = [] } }
    {
        Kept {
            last_run,
            rows: Vec::new(alloc),
            ids: HashMap::new(alloc),
            listing: Listing::new(alloc),
        }
    }

    pub(crate) fn open_run(&mut self) -> Result<u64, KeepError>
        ensures { Works open_run_on self.old self.new result }
    {
        if self.last_run >= GREATEST {
            return Err(KeepError::UsedUp);
        }
        self.last_run += 1;
        Ok(self.last_run)
    }

    pub(crate) fn put_once(&mut self, key: &Key, row: &GameRow) -> Result<u64, KeepError>
        ensures { Works (put_on key.now row.now) self.old self.new result }
    {
        match self.id(key) {
            Some(id) => self.again(id, row),
            None => self.append(key, row),
        }
    }

    /// The id under which a key is kept.
    fn id(&self, key: &Key) -> Option<u64>
        ensures found { result ≡ id_of self.now key.now }
        ensures within { IfSome result (λ id. (1 ≤ id) × (id ≤ length self.now.rows)) }
    {
        self.ids.get(key).copied()
    }

    /// The answer if the key is kept under this id.
    fn again(&self, id: u64, row: &GameRow) -> Result<u64, KeepError>
        requires from_one { 1 ≤ id }
        requires within { id ≤ length self.now.rows }
        ensures { result ≡ (if is_row row.now (row_of_id self.now id)
            then Ok id else Err (KeyDiffers id)) }
    {
        if self.rows[id as usize - 1].1 == *row {
            return Ok(id);
        }
        Err(KeepError::KeyDiffers(id))
    }

    /// Keeps a game under a key that is new, and lists it.
    fn append(&mut self, key: &Key, row: &GameRow) -> Result<u64, KeepError>
        requires { id_of self.old key.now ≡ None }
        ensures { Works (put_by None key.now row.now) self.old self.new result }
    {
        let last = self.rows.len() as u64;
        if last >= GREATEST {
            return Err(KeepError::UsedUp);
        }
        let copy = row.clone()?;
        self.add(key, copy)?;
        // Without memory for it, the next list of a member's games does it.
        let _ = self.listing.catch_up(&self.rows);
        Ok(last + 1)
    }

    fn add(&mut self, key: &Key, row: GameRow) -> Result<(), AllocError>
        requires { id_of self.old key.now ≡ None }
        ensures ok { OnOk result (self.new ≡ with_row key.now row self.old) }
        ensures err { OnErr result (self.new ≡ self.old) }
    {
        self.rows.reserve(1)?;
        let id = self.rows.len() as u64 + 1;
        self.ids.insert(*key, id)?;
        self.rows.push_reserved((*key, row));
        Ok(())
    }

    pub(crate) fn get(&self, id: u64) -> Result<Option<GameRow>, AllocError>
        ensures { IfOk result (λ row. row ≡ row_of_id self.now id) }
    {
        if id == 0 || id > self.rows.len() as u64 {
            return Ok(None);
        }
        let row = self.rows[id as usize - 1].1.clone()?;
        Ok(Some(row))
    }

    pub(crate) fn of_member(&mut self, name: &Name) -> Result<Lines, AllocError>
        ensures same { self.new ≡ self.old }
        ensures lines { IfOk result (λ lines. lines ≡ lines_from 1 name.now self.old.rows) }
    {
        self.listing.catch_up(&self.rows)?;
        self.listing.lines(name)
    }
}
