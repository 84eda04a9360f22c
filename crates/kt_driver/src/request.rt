ghost use Rattle.std.specs.Prelude.{◌≡◌, string_bytes};
ghost use Rattle.std.specs.Option.{option_map};
ghost use Rattle.kt_driver.specs.Requests.{request_of, texts_of, format_named, order_named, is_translation, translation_between, translation_to, input_format};

use spv_words::Order;

/// A format of kernel modules.
#[derive(Clone, Copy, Debug, PartialEq, Eq, Hash)]
pub enum Format {
    /// Textual LLVM modules.
    Llvm,
    /// SPIR-V binaries.
    Spirv,
}

/// What the words of a command line ask for.
#[derive(Clone, Copy, Debug, PartialEq, Eq, Hash)]
pub enum Request {
    /// To write a module of one format in another one, in this byte order where it has one.
    Translate {
        from: Format,
        to: Format,
        order: Order,
    },
    /// To list the parts of an input of this format.
    Show {
        from: Format,
    },
}

impl Request {
    /// The format of the input.
    pub fn input_format(self) -> Format
        ensures { result ≡ input_format self }
    {
        match self {
            Request::Translate { from, .. } | Request::Show { from } => from,
        }
    }
}

/// The request that the words make, if they make one.
pub fn read_request(words: &[String]) -> Option<Request>
    ensures { result ≡ request_of (texts_of words.now) }
{
    match words {
        [command, from, source] if command.as_str() == "show" && from.as_str() == "--from" => {
            show(source.as_str())
        }
        [command, from, source, to, target] if is_translation(command, from, to) => {
            translation_between(source.as_str(), target.as_str(), Order::Little)
        }
        [command, from, source, to, target, order, value]
            if is_translation(command, from, to) && order.as_str() == "--order" => {
            let order = order_named(value.as_str())?;
            translation_between(source.as_str(), target.as_str(), order)
        }
        _ => None,
    }
}

/// Whether the words are those of a translation, the names of its formats aside.
fn is_translation(command: &String, from: &String, to: &String) -> bool
    ensures { result ≡ is_translation (string_bytes command.now) (string_bytes from.now) (string_bytes to.now) }
{
    command.as_str() == "translate" && from.as_str() == "--from" && to.as_str() == "--to"
}

/// The request for a translation between the formats of these names, which differ.
fn translation_between(source: &str, target: &str, order: Order) -> Option<Request>
    ensures { result ≡ translation_between source.now target.now order }
{
    let from = format_named(source)?;
    let to = format_named(target)?;
    translation_to(order, from, to)
}

/// The request for a translation from a format to another one.
fn translation_to(order: Order, from: Format, to: Format) -> Option<Request>
    ensures { result ≡ translation_to order from to }
{
    match (from, to) {
        (Format::Llvm, Format::Spirv) | (Format::Spirv, Format::Llvm) => {
            Some(Request::Translate { from, to, order })
        }
        _ => None,
    }
}

/// The request to list an input of the format with this name.
fn show(word: &str) -> Option<Request>
    ensures { result ≡ option_map Request.Show (format_named word.now) }
{
    let from = format_named(word)?;
    Some(Request::Show { from })
}

fn format_named(word: &str) -> Option<Format>
    ensures { result ≡ format_named word.now }
{
    match word {
        "llvm" => Some(Format::Llvm),
        "spirv" => Some(Format::Spirv),
        _ => None,
    }
}

fn order_named(word: &str) -> Option<Order>
    ensures { result ≡ order_named word.now }
{
    match word {
        "little" => Some(Order::Little),
        "big" => Some(Order::Big),
        _ => None,
    }
}
