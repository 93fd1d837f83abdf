ghost use Rattle.std.specs.Prelude.{◌≡◌, option_map};
ghost use Rattle.pr_serve.specs.Words.{is_bare_text, number_in, count_in, accept_in, words_in};
ghost use Rattle.pr_serve.specs.Views.{texts_of, asked_of};

/// The most connections that may be asked for.
const MOST: u64 = 1_000_000;

/// What the words of `serve` ask for.
#[derive(Clone, Copy, Debug)]
pub struct ServeWords<'a> {
    /// The address at which connections come in.
    pub address: &'a str,
    /// The path of the registrations' file.
    pub registrations: &'a str,
    /// The path of the file that holds the blocks.
    pub blocks: &'a str,
    /// How many connections are taken, and None where no number ends the run.
    pub accept: Option<u64>,
}

/// Decimal digits may stand there with no sign and no zero in front.
fn is_bare(digits: &[u8]) -> bool
    ensures { result ≡ is_bare_text digits.now }
{
    matches!(digits, [b'1'..=b'9', ..])
}

/// The number from 1 to 2^64 - 1 that decimal digits say, with no sign and no zero in front.
fn number_of(text: &str) -> Option<u64>
    ensures { result ≡ number_in text.now }
{
    if is_bare(text.as_bytes()) {
        text.parse::<u64>().ok()
    } else {
        None
    }
}

/// So many connections, 1 to 1,000,000.
fn count_of(text: &str) -> Option<u64>
    ensures { result ≡ count_in text.now }
{
    match number_of(text) {
        Some(count) if count <= MOST => Some(count),
        _ => None,
    }
}

/// How many connections are taken, by the words behind the files. None where they are no such words.
fn accept_of(words: &[&str]) -> Option<Option<u64>>
    ensures { result ≡ accept_in (texts_of words.now) }
{
    match words {
        [] => Some(None),
        [option, count] if *option == "--accept" => match count_of(count) {
            Some(count) => Some(Some(count)),
            None => None,
        },
        _ => None,
    }
}

/// What is asked for, by the words `serve ADDRESS REGISTRATIONS BLOCKS`, and behind them maybe
/// `--accept` and a number of connections from 1 to 1,000,000. None where the words aren't these.
pub fn serve_words<'a>(words: &'a [&'a str]) -> Option<ServeWords<'a>>
    ensures { option_map asked_of result ≡ words_in (texts_of words.now) }
{
    match words {
        [verb, address, registrations, blocks, rest @ ..] if *verb == "serve" => {
            let accept = accept_of(rest)?;
            Some(ServeWords {
                address,
                registrations,
                blocks,
                accept,
            })
        }
        _ => None,
    }
}
