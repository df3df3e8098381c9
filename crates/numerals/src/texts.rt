// A text cut at a byte.
ghost use Rattle.std.specs.Prelude.{◌≡◌, length, take, drop};
ghost use Rattle.numerals.specs.Texts.{before, begins_with};
ghost use Rattle.numerals.specs.Answers.{CutAt};

// How many bytes stand before the first of this kind; all of them where there is none.
pub fn count_before(text: &[u8], byte: u8) -> usize
    ensures { result ≡ length (before byte text.now) }
{
    text.iter().position(|b| *b == byte).unwrap_or(text.len())
}

// The first bytes of a text; all of them where it has no more.
pub fn front(text: &[u8], count: usize) -> &[u8]
    ensures { result.now ≡ take count text.now }
{
    &text[..count.min(text.len())]
}

// The bytes behind the first ones.
pub fn rest(text: &[u8], count: usize) -> &[u8]
    ensures { result.now ≡ drop count text.now }
{
    &text[count.min(text.len())..]
}

// What stands before the first byte of this kind and what stands behind it, if there is one.
pub fn split_once(text: &[u8], byte: u8) -> Option<(&[u8], &[u8])>
    ensures { CutAt byte text.now result }
{
    let at = count_before(text, byte);
    if at == text.len() {
        return None;
    }
    Some((front(text, at), rest(text, at + 1)))
}

// Whether a text begins with a word.
// kept: a public function stays, also where no call within is left of it.
#[tactic(auto, using(crate::proofs::Cuts::begins_is))]
pub fn begins_with(text: &[u8], word: &[u8]) -> bool
    ensures { result ≡ begins_with word.now text.now }
{
    text.strip_prefix(word).is_some()
}
