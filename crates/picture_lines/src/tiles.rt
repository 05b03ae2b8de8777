//! VRAM, with the colours of its tile rows kept.

ghost use Rattle.std.specs.Prelude.{◌≡◌, ◌<◌, List, ℕ, IfOk, replicate, slice_index, slice_set, length};
ghost use Rattle.picture_lines.specs.Tiles.{tile_row, IsCached};

use crate::kernels::tile_colours;
use std::alloc::{AllocError, Global};
use std::marker::Model;

// 384 tiles of 8 rows.
const TILE_ROWS: usize = 3072;

/// VRAM. It keeps the colours of each of its 384 x 8 tile rows, which are computed when they are
/// first used. Contracts see the 8,192 bytes alone.
#[derive(Drop)]
pub struct TileMemory {
    bytes: Vec<u8>,
    rows: Vec<[u8; 8]>,
    stale: Vec<bool>,
}

impl Model for TileMemory {
    ghost Value = { List ℕ };

    ghost view = { λ m. m.bytes.items };

    ghost invariant = { λ m. IsCached m.bytes.items m.rows.items m.stale.items };
}

impl TileMemory {
    /// 8,192 bytes 0. Refused where there is no memory; no other call takes any.
    pub fn new(alloc: Global) -> Result<TileMemory, AllocError>
        ensures { IfOk result (λ m. m ≡ replicate 8192 0) }
    {
        let bytes = Vec::from_elem(alloc, 0u8, 8192)?;
        let rows = Vec::from_elem(alloc, [0u8; 8], TILE_ROWS)?;
        let stale = Vec::from_elem(alloc, true, TILE_ROWS)?;
        Ok(TileMemory { bytes, rows, stale })
    }

    /// The 8,192 bytes.
    pub fn bytes(&self) -> &[u8]
        ensures bytes { result.now ≡ self.now }
        ensures whole { length result.now ≡ 8192 }
    {
        &self.bytes
    }

    /// A byte, by its offset from 8000.
    pub fn byte(&self, offset: usize) -> u8
        requires { offset < 8192 }
        ensures { result ≡ slice_index self.now offset }
    {
        self.bytes[offset]
    }

    /// Writes a byte. The tile row that it is part of is stale.
    pub fn write(&mut self, at: usize, value: u8)
        requires { at < 8192 }
        ensures { self.new ≡ slice_set self.old at value }
    {
        self.bytes[at] = value;
        if at / 2 < TILE_ROWS {
            self.stale[at / 2] = true;
        }
    }

    /// The eight colours of a tile row, the leftmost first. Row r of tile t has the index 8 t + r.
    pub(crate) fn row(&mut self, index: usize) -> [u8; 8]
        requires { index < 3072 }
        ensures value { result ≡ tile_row self.old index }
        ensures kept { self.new ≡ self.old }
    {
        if self.stale[index] {
            let colours = tile_colours(self.bytes[2 * index], self.bytes[2 * index + 1]);
            self.rows[index] = colours;
            self.stale[index] = false;
            return colours;
        }
        self.rows[index]
    }

    /// Sets all bytes. Every tile row is stale.
    pub fn fill(&mut self, bytes: &[u8])
        requires { length bytes.now ≡ 8192 }
        ensures { self.new ≡ bytes.now }
    {
        self.bytes.copy_from_slice(bytes);
        self.stale.fill(true);
    }

    /// Every tile row is stale. The bytes stay.
    pub fn mark_stale(&mut self)
        ensures { self.new ≡ self.old }
    {
        self.stale.as_mut_slice().fill(true);
    }
}
