//! The words as they are typed, and as they go to `clap`.

ghost use Rattle.std.specs.Prelude.{◌≡◌, ◌++◌, codes, map, string_bytes, IfOk};
ghost use Rattle.dh_arguments.specs.TypedWords.{allows_hyphened, begin_with_pair, is_hyphened, joined, texts_of};

use std::alloc::{AllocError, Global};

/// The words behind the program's name, as they go to `clap`.
#[derive(Drop)]
pub struct Words {
    pub(crate) texts: Vec<String>,
}

// Whether the word is an option whose value may begin with a hyphen: a key or a path.
fn allows_hyphened(word: &str) -> bool
    ensures { result ≡ allows_hyphened word.now }
{
    word == "--file" || word == "--key"
}

// Whether the word begins with one hyphen, and asks for no help.
fn is_hyphened(word: &str) -> bool
    ensures { result ≡ is_hyphened word.now }
{
    let bytes = word.as_bytes();
    bytes.len() > 1 && bytes[0] == b'-' && bytes[1] != b'-' && bytes[1] != b'h'
}

// Whether the first of the words is such an option, and the second is such a value.
fn begin_with_pair(words: &[&str]) -> bool
    ensures { result ≡ begin_with_pair (map (λ word. word.now) words.now) }
{
    words.len() > 1 && allows_hyphened(words[0]) && is_hyphened(words[1])
}

// The option and its value in one word.
fn in_one_word(alloc: Global, option: &str, value: &str) -> Result<String, AllocError>
    ensures { IfOk result (λ word. string_bytes word ≡ option.now ++ codes "=" ++ value.now) }
{
    format!(in alloc; "{option}={value}")
}

impl Words {
    /// Takes the words as they were typed. `clap` takes no word that begins with a hyphen for a value, but in one word with its option.
    /// So `--file` or `--key` and a value behind it that begins with one hyphen become one word, as `--key=-1`. A value that begins
    /// with two hyphens or with `-h` stands for itself: it is an option, or asks for help.
    pub fn join(alloc: Global, typed: &[&str]) -> Result<Words, AllocError>
        ensures { IfOk result (λ words. texts_of words ≡ joined (map (λ word. word.now) typed.now)) }
    {
        let mut texts = Vec::new(alloc);
        let mut ended = false;
        let mut at = 0usize;
        while at < typed.len() {
            let word = typed[at];
            ended = ended || word == "--";
            if !ended && begin_with_pair(&typed[at..]) {
                texts.push(in_one_word(alloc, word, typed[at + 1])?)?;
                at += 2;
            } else {
                texts.push(String::from_str(alloc, word)?)?;
                at += 1;
            }
        }
        Ok(Words { texts })
    }
}
