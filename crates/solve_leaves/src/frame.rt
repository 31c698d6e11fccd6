// Cells of the work room and of the list of errors.
ghost use Rattle.std.specs.Prelude.{◌≡◌, ◌++◌, ℕ, ◌<◌, ◌≤◌, length, get_or, drop};
ghost use Rattle.std.proofs.Math.Seq.{paste};
ghost use Rattle.definition.specs.Sizes.{entry_cells};
ghost use Rattle.definition.specs.Lists.{Among, all};
ghost use Rattle.definition.specs.Update.{is_sorted};
ghost use Rattle.definition.specs.Buffers.{cells_of};
ghost use Rattle.solve_leaves.specs.Room.{Apart};
ghost use Rattle.solve_leaves.specs.Says.{entry_of};

// An error entry: number, record, place, three values, two zeroes.
pub const ENTRY_CELLS: usize = 8;

// One entry of an error: its number, the record that failed, that record's place, and up to three values.
#[derive(Clone, Copy, Debug, PartialEq, Eq)]
pub struct Entry {
    pub number: usize,
    pub source: usize,
    pub place: usize,
    pub first: usize,
    pub second: usize,
    pub third: usize,
}

// Copies n cells of the room to another place, which does not meet the first.
pub fn copy_cells(cells: &mut [usize], from: usize, to: usize, n: usize)
    requires { Apart from to n cells.old }
    ensures { cells.new ≡ paste cells.old to (drop from cells.old) n }
{
    for i in 0..n {
        cells[to + i] = cells[from + i];
    }
}

// Whether every watched term has a sort.
pub fn all_sorted(watched: &[usize], work: &[usize]) -> bool
    requires { (t : ℕ) → Among t watched.now → t < length work.now }
    ensures { result ≡ all (λ t. is_sorted (get_or work.now t 0)) watched.now }
{
    watched.iter().all(|term| work[*term] != 0)
}

// Writes one entry at the front of the list of errors.
pub fn put_entry(errors: &mut [usize], entry: Entry)
    requires { entry_cells ≤ length errors.old }
    ensures { errors.new ≡ cells_of (entry_of entry) ++ drop entry_cells errors.old }
{
    errors[0] = entry.number;
    errors[1] = entry.source;
    errors[2] = entry.place;
    errors[3] = entry.first;
    errors[4] = entry.second;
    errors[5] = entry.third;
    errors[6] = 0;
    errors[7] = 0;
}
