// The questions asked of a label itself: 512 words, link l's at 8 l to 8 l + 7, and atom k the bit k % 64 of the word k / 64 of these.
// What is public here has no premise.
#![tactic(auto)]

ghost use Rattle.std.specs.Prelude.{◌≡◌, ◌≤◌, length};
ghost use Rattle.std.specs.List.{sum_by};
ghost use lib.Count.{ones};
ghost use Rattle.meaning.specs.Search.{found};
ghost use Rattle.meaning.specs.Labels.{how_many, lowest_on};

// How many bits of the words are 1.
fn ones_of(words: &[u64]) -> u32
    requires { length words.now ≤ 8 }
    ensures { result ≡ sum_by ones words.now }
{
    words.iter().map(|word| word.count_ones()).sum()
}

// How many atoms are on a link.
pub fn atoms_on(label: &[u64; 512], link: usize) -> u32
    ensures { result ≡ how_many label.now link }
{
    if 64 <= link {
        return 0;
    }
    ones_of(&label[8 * link..8 * link + 8])
}

// The lowest-numbered atom on a link.
pub fn lowest_on(label: &[u64; 512], link: usize) -> Option<usize>
    ensures { found result ≡ lowest_on label.now link }
{
    if 64 <= link {
        return None;
    }
    let words = &label[8 * link..8 * link + 8];
    let Some(i) = words.iter().position(|word| *word != 0) else {
        return None;
    };
    Some(64 * i + words[i].trailing_zeros() as usize)
}
