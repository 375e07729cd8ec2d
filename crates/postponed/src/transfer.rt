// A block goes in and a word comes out. Modulo 257, position j is 12 to the power 4 j, and 12 to
// the power 128 is −1. So at the count r + 4 q, with r below 4, position j stands where position
// q + j would stand at the count r; from position 32 on the same places come again, each opposite.
// Every place is therefore that of one of positions 0 to 31 at one of the four counts below 4, or
// opposite to such a place. The order is always the same, and only the start differs.
ghost use Rattle.std.specs.Prelude.{◌≡◌, ◌^◌, ◌<◌};
ghost use Rattle.duplex.specs.State.{reading};
ghost use Rattle.words.specs.Packing.{state_of_words, stretch, inject_by};
ghost use Rattle.postponed.specs.Rows.{row_added};

use crate::count::Count;
use words::Words;

impl Count {
    /// The word that is read at this count.
    pub fn read(self, words: &Words) -> u32
        ensures { result ≡ reading (stretch (12 ^ self.value) (state_of_words words.now.array)) }
    {
        read_at(words, self.value % 4).rotate_right(self.value / 4)
    }

    /// Adds the lowest 33 bits of the block where the positions stand at this count. Numbers below
    /// 0x200, among them the padded blocks of at most one byte, are added bit by bit, since that
    /// takes fewer instructions; larger ones are added as a rotated row.
    pub fn inject(self, words: &mut Words, block: u64)
        ensures { let s = state_of_words words.old.array in
            state_of_words words.new.array ≡ inject_by (12 ^ self.value) s block }
    {
        if block < 0x200 {
            words.inject_by(block, &self);
        } else {
            let row = (block & 0x1_ffff_ffff).rotate_left(self.value / 4);
            add_row_at(words, row, self.value % 4);
        }
    }
}

// Each remainder has a branch of its own, with the count as a literal, so that all places can be
// constants.
#[inline(always)]
fn read_at(words: &Words, remainder: u32) -> u32
    requires { remainder < 4 }
    ensures { result ≡ reading (stretch (12 ^ remainder) (state_of_words words.now.array)) }
{
    match remainder {
        0 => words.read_by(&Count { value: 0 }),
        1 => words.read_by(&Count { value: 1 }),
        2 => words.read_by(&Count { value: 2 }),
        _ => words.read_by(&Count { value: 3 }),
    }
}

#[inline(always)]
fn add_row_at(words: &mut Words, row: u64, remainder: u32)
    requires { remainder < 4 }
    ensures { let s = state_of_words words.old.array in
        state_of_words words.new.array ≡ row_added remainder s row }
{
    match remainder {
        0 => add_row(words, row, 0),
        1 => add_row(words, row, 1),
        2 => add_row(words, row, 2),
        _ => add_row(words, row, 3),
    }
}

// Adds the lower half at the places of the positions, and the upper half opposite to them.
#[inline(always)]
fn add_row(words: &mut Words, row: u64, count: u32)
    requires { count < 4 }
    ensures { let s = state_of_words words.old.array in
        state_of_words words.new.array ≡ row_added count s row }
{
    words.add_word_by(row, &Count { value: count });
    words.add_word_by(row >> 32, &Count { value: count + 128 });
}
