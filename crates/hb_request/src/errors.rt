//! Why does a message ask nothing?

ghost use Rattle.std.specs.Prelude.{◌≡◌, Some};
ghost use Rattle.hb_request.specs.WireError.{field_text, error_number, error_text};
ghost use Rattle.hb_request.specs.declared.errors.FieldName.TheVariants as field;
ghost use Rattle.hb_request.specs.declared.errors.WireError.TheVariants as error;

use hb_json::{OptionFault, OptionKey};
use std::alloc::AllocError;
use std::error::Error;
use std::fmt;

/// A field of a request. It prints as its name in the table of commands.
#[derive(Clone, Copy, PartialEq, Eq, Debug)]
pub enum FieldName {
    /// `name`, a text.
    Name,
    /// `key`, a text of 1 to 64 bytes.
    Key,
    /// `room`, 0 to 2^32 - 1.
    Room,
    /// `table`, 1 to 2^32 - 1.
    Table,
    /// `number`, 1 to 2^32 - 1.
    Number,
    /// `options`, absent or an object of options.
    Options,
    /// `order`, 0 to 59.
    Order,
    /// `to`, 0 to 5.
    To,
    /// `clue`, which stands for one of the keys `color` and `rank`.
    Clue,
    /// `text`, any text.
    Text,
    /// `shadow`, absent, null or 0 to 5.
    Shadow,
    /// `id`, 1 to 2^53.
    Id,
    /// `turn`, 0 to 65,535.
    Turn,
    /// `action`, an action of type 0 to 3.
    Action,
}

impl FieldName {
    /// The name of the field.
    pub fn text(self) -> &'static str
        ensures { result.now ≡ field_text self }
    {
        match self {
            FieldName::Name => "name",
            FieldName::Key => "key",
            FieldName::Room => "room",
            FieldName::Table => "table",
            FieldName::Number => "number",
            FieldName::Options => "options",
            FieldName::Order => "order",
            FieldName::To => "to",
            FieldName::Clue => "clue",
            FieldName::Text => "text",
            FieldName::Shadow => "shadow",
            FieldName::Id => "id",
            FieldName::Turn => "turn",
            FieldName::Action => "action",
        }
    }
}

impl fmt::Display for FieldName {
    ghost output = { λ field. Some (field_text field) };

    fn fmt<W: fmt::Write>(&self, f: &mut fmt::Formatter<W>) -> fmt::Result {
        f.write_str(self.text())
    }
}

impl From<OptionKey> for FieldName {
    ghost from_gives = { λ _ f. f ≡ field.Options };

    fn from(_: OptionKey) -> Self {
        FieldName::Options
    }
}

impl From<OptionFault> for FieldName {
    ghost from_gives = { λ _ f. f ≡ field.Options };

    fn from(_: OptionFault) -> Self {
        FieldName::Options
    }
}

/// Why a message asks nothing. `TooLong` is tried first, and then the others in the order in which
/// they stand here, except `NoMemory`, which may come at any point.
#[derive(Clone, Copy, PartialEq, Eq, Debug)]
pub enum WireError {
    /// 1: the command word is empty.
    NoCommand,
    /// 2: the command word is not in the table.
    UnknownCommand,
    /// 3: there is no space, or what follows it is not the text of a JSON object.
    Json,
    /// 4: the first field of the command, in the table's order, that is missing or out of its
    /// range.
    Field(FieldName),
    /// 5: the message has more than 16,384 bytes.
    TooLong,
    /// 6: memory ran out.
    NoMemory,
}

impl WireError {
    /// The number of the refusal, 1 to 6.
    pub fn number(self) -> u8
        ensures { result ≡ error_number self }
    {
        match self {
            WireError::NoCommand => 1,
            WireError::UnknownCommand => 2,
            WireError::Json => 3,
            WireError::Field(_) => 4,
            WireError::TooLong => 5,
            WireError::NoMemory => 6,
        }
    }
}

impl fmt::Display for WireError {
    ghost output = { λ error. Some (error_text error) };

    fn fmt<W: fmt::Write>(&self, f: &mut fmt::Formatter<W>) -> fmt::Result {
        match self {
            WireError::NoCommand => f.write_str("no command"),
            WireError::UnknownCommand => f.write_str("unknown command"),
            WireError::Json => f.write_str("not a JSON object"),
            WireError::Field(field) => write!(f, "field {field}"),
            WireError::TooLong => f.write_str("too long"),
            WireError::NoMemory => f.write_str("no memory"),
        }
    }
}

impl Error for WireError {}

impl From<FieldName> for WireError {
    ghost from_gives = { λ f e. e ≡ error.Field f };

    fn from(field: FieldName) -> Self {
        WireError::Field(field)
    }
}

impl From<AllocError> for WireError {
    ghost from_gives = { λ _ e. e ≡ error.NoMemory };

    fn from(_: AllocError) -> Self {
        WireError::NoMemory
    }
}
