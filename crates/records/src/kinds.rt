// What a variable is: a string, an integer or a macro.
ghost use Rattle.std.specs.Prelude.{◌≡◌};
ghost use Rattle.records.specs.Kinds.{kind_of, kind_number};

#[derive(Clone, Copy)]
pub enum Kind {
    Text,
    Integer,
    Macro,
}

impl Kind {
    // The byte that stands for it in a record.
    pub fn number(self) -> u8
        ensures { result ≡ kind_number self }
    {
        match self {
            Kind::Text => 0,
            Kind::Integer => 1,
            Kind::Macro => 2,
        }
    }
}

// The kind that a record's byte stands for. A good table has none above 2; one is read as a macro's.
impl From<u8> for Kind {
    ghost from_gives = { λ byte kind. kind ≡ kind_of byte };

    fn from(byte: u8) -> Kind {
        match byte {
            0 => Kind::Text,
            1 => Kind::Integer,
            _ => Kind::Macro,
        }
    }
}
