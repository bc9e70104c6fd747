//! The table of the data path's verbs.

ghost use Rattle.std.specs.Prelude.{◌≡◌};
ghost use Rattle.std.specs.Option.{option_copied};
ghost use Rattle.uv_script.specs.DataVerbs.{data_text, is_data_spelled, data_word, data_verb};
ghost use Rattle.uv_script.specs.Words.{words_of, first_as, words_left};

use crate::words::next_word;
use uv_num::DRIVER;

/// What a word after a client is, where the line makes a call of the data path.
#[derive(Clone, Copy, Debug, PartialEq)]
pub(crate) enum DataWord {
    /// Polls a completion queue.
    Poll,
    /// Asks a completion queue for an event.
    Arm,
    /// Takes the oldest event of a channel.
    Event,
}

/// The verbs of the data path.
pub(crate) const DATA_VERBS: [DataWord; 3] = [DataWord::Poll, DataWord::Arm, DataWord::Event];

/// The verb of the data path that stands after an actor, which is a client, and the words after it.
pub(crate) fn data_verb(actor: u32, text: &[u8]) -> Option<(DataWord, &[u8])>
    ensures { words_left result ≡ data_verb actor (words_of text.now) }
{
    if actor == DRIVER {
        None
    } else {
        data_operand(text)
    }
}

fn data_operand(text: &[u8]) -> Option<(DataWord, &[u8])>
    ensures { words_left result ≡ first_as data_word (words_of text.now) }
{
    let (word, rest) = next_word(text)?;
    let verb = data_word(word)?;
    Some((verb, rest))
}

/// The verb that a word is.
fn data_word(word: &[u8]) -> Option<DataWord>
    ensures { result ≡ data_word word.now }
{
    let verb = listed(word)?;
    Some(*verb)
}

fn listed(word: &[u8]) -> Option<&'static DataWord>
    ensures { option_copied result ≡ data_word word.now }
{
    DATA_VERBS.iter().find(|verb| is_data_spelled(word, **verb))
}

fn is_data_spelled(word: &[u8], verb: DataWord) -> bool
    ensures { result ≡ is_data_spelled word.now verb }
{
    data_text(verb).as_bytes() == word
}

/// The word of a verb, after the calls of libibverbs (`ibv_poll_cq`, `ibv_req_notify_cq`, `ibv_get_cq_event`).
fn data_text(verb: DataWord) -> &'static str
    ensures { result.now ≡ data_text verb }
{
    match verb {
        DataWord::Poll => "poll",
        DataWord::Arm => "arm",
        DataWord::Event => "event",
    }
}
