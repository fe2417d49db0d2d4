// The words of a call.
ghost use Rattle.std.specs.Prelude.{◌≡◌, ◌||◌, codes, IfSome, None, Some};
ghost use Rattle.std.specs.Str.{bytes_eq};
ghost use Rattle.host.specs.Words.{are_options, has, meant, order_of};

/// What the words ask: the manifest whose guests are run, and whether their counts and the journal are told.
#[derive(Clone, Copy, Debug)]
pub struct Order<'a> {
    pub file: &'a str,
    pub counts: bool,
    pub journal: bool,
}

/// What the words ask, where they are `run` and a file, and behind them options in any order, each at most once.
pub fn order_of(words: &[String]) -> Option<Order<'_>>
    ensures none { result ≡ None → order_of words.now ≡ None }
    ensures some { IfSome result (λ order. order_of words.now ≡ Some (meant order)) }
{
    match words {
        [verb, file, options @ ..] if verb.as_str() == "run" && are_options(options) => {
            Some(Order {
                file: file.as_str(),
                counts: has(options, "--counts"),
                journal: has(options, "--journal"),
            })
        }
        _ => None,
    }
}

// Whether each word is an option, and stands once.
fn are_options(words: &[String]) -> bool
    ensures { result ≡ are_options words.now }
{
    match words.split_first() {
        None => true,
        Some((word, rest)) => {
            is_option(word.as_str()) && !has(rest, word.as_str()) && are_options(rest)
        }
    }
}

fn is_option(word: &str) -> bool
    ensures { result ≡ (bytes_eq word.now (codes "--counts") || bytes_eq word.now (codes "--journal")) }
{
    word == "--counts" || word == "--journal"
}

// Whether this text is one of the words.
fn has(words: &[String], text: &str) -> bool
    ensures { result ≡ has text.now words.now }
{
    words.iter().any(|word| word.as_str() == text)
}
