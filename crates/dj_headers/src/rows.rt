//! Rows of bits: what stands above what, a row a place.

ghost use Rattle.std.specs.Prelude.{◌≡◌, ◌↔◌, ◌⊎◌, ℕ, ◌<◌, ◌≤◌, IsTrue, OnOk, OnErr, length};
ghost use Rattle.dj_headers.specs.Rows.{IsSet, row_at, Opens, IsOpened, HasRoom};

use dj_names::Items;
use std::alloc::AllocError;

/// Whether the bit at this place is set.
pub fn is_set(row: &[u64], at: usize) -> bool
    ensures set { IsTrue result ↔ IsSet row.now at }
{
    at / 64 < row.len() && row[at / 64] >> (at % 64) & 1 == 1
}

/// Adds words without a set bit until there are so many.
pub fn widen(row: &mut Items<u64>, words: usize) -> Result<(), AllocError>
    ensures wide { OnOk result (words ≤ length row.new) }
    ensures bits { (j : ℕ) → IsSet row.new j ↔ IsSet row.old j }
{
    for _ in row.len()..words {
        row.push(0)?;
    }
    Ok(())
}

/// Sets the bits that are set in `more`.
pub fn merge(row: &mut Items<u64>, more: &[u64])
    requires room { length more.now ≤ length row.old }
    ensures bits { (j : ℕ) → IsSet row.new j ↔ (IsSet row.old j ⊎ IsSet more.now j) }
{
    for (at, word) in more.iter().enumerate() {
        let old = row.as_slice()[at];
        row.set(at, old | *word);
    }
}

/// Sets the bit at this place.
pub fn set_bit(row: &mut Items<u64>, at: usize) -> Result<(), AllocError>
    ensures set { OnOk result ((j : ℕ) → IsSet row.new j ↔ (IsSet row.old j ⊎ (j ≡ at))) }
    ensures kept { OnErr result ((j : ℕ) → IsSet row.new j ↔ IsSet row.old j) }
{
    let word = at / 64;
    widen(row, word + 1)?;
    let old = row.as_slice()[word];
    row.set(word, old | 1 << (at % 64));
    Ok(())
}

/// Whether the row at one place has the bit at another.
pub fn is_above(rows: &[Items<u64>], from: usize, to: usize) -> bool
    ensures set { IsTrue result ↔ IsSet (row_at rows.now from) to }
{
    from < rows.len() && is_set(rows[from].as_slice(), to)
}

/// Sets the bits of the row at this place.
fn add_row(rows: &[Items<u64>], at: usize, up: &mut Items<u64>) -> Result<(), AllocError>
    ensures bits { OnOk result ((j : ℕ) → IsSet up.new j ↔ (IsSet up.old j ⊎ IsSet (row_at rows.now at) j)) }
{
    if at >= rows.len() {
        return Ok(());
    }
    let row = rows[at].as_slice();
    widen(up, row.len())?;
    merge(up, row);
    Ok(())
}

/// Sets the bits of the row at this place, and that of the place.
pub fn join_row(rows: &[Items<u64>], at: usize, up: &mut Items<u64>) -> Result<(), AllocError>
    ensures bits { OnOk result ((j : ℕ) → IsSet up.new j
        ↔ ((IsSet up.old j ⊎ IsSet (row_at rows.now at) j) ⊎ (j ≡ at))) }
{
    add_row(rows, at, up)?;
    set_bit(up, at)?;
    Ok(())
}
