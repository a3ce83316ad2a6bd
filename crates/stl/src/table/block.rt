// The block of places whose keys stand in a table. It has a file of its own, as the definitions that `table` cites are about it.

ghost use Rattle.std.specs.Prelude.{◌+◌, ◌*◌, ◌≤◌};
ghost use Rattle.stl.specs.Table.Size.{block_size};

use super::Keys;
use crate::file::File;

// So many places of a file from lo on, no more than a table takes, and what they are looked for by.
#[derive(Clone, Copy)]
pub struct Block<'a> {
    pub file: File<'a>,
    pub keys: Keys,
    pub lo: usize,
    pub count: usize,
    pub ghost within: { lo + count ≤ 3 * file.triangles },
    pub ghost small: { count ≤ block_size },
}
