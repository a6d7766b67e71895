// Links: where a link begins, by its word.
ghost use Rattle.std.specs.Prelude.{◌≡◌, ◌/◌, ◌<◌};

// The source of a link, by its word.
pub fn source_of(word: u16) -> usize
    ensures { (result ≡ word / 1024) × (result < 64) }
{
    (word / 1024) as usize
}
