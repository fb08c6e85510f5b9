ghost use Rattle.std.specs.Prelude.{◌≡◌};
ghost use Rattle.quilt_types.specs.CodeTable.{code_number, code_word};

/// Why a command is refused. A reply names it by a number and a word.
#[derive(Clone, Copy, Debug, PartialEq, Eq)]
pub enum Code {
    Word,
    Count,
    Number,
    Name,
    Unknown,
    Kind,
    Exists,
    Outside,
    Absent,
    Present,
    Full,
    Layers,
    Long,
    Rows,
    Format,
    Editions,
    Bytes,
    Many,
}

impl Code {
    /// The refusal's number, from 1 to 18.
    pub fn number(&self) -> u8
        ensures { result ≡ code_number self.now }
    {
        match self {
            Code::Word => 1,
            Code::Count => 2,
            Code::Number => 3,
            Code::Name => 4,
            Code::Unknown => 5,
            Code::Kind => 6,
            Code::Exists => 7,
            Code::Outside => 8,
            Code::Absent => 9,
            Code::Present => 10,
            Code::Full => 11,
            Code::Layers => 12,
            Code::Long => 13,
            Code::Rows => 14,
            Code::Format => 15,
            Code::Editions => 16,
            Code::Bytes => 17,
            Code::Many => 18,
        }
    }

    /// The refusal's word.
    pub fn word(&self) -> &'static str
        ensures { result.now ≡ code_word self.now }
    {
        match self {
            Code::Word => "word",
            Code::Count => "count",
            Code::Number => "number",
            Code::Name => "name",
            Code::Unknown => "unknown",
            Code::Kind => "kind",
            Code::Exists => "exists",
            Code::Outside => "outside",
            Code::Absent => "absent",
            Code::Present => "present",
            Code::Full => "full",
            Code::Layers => "layers",
            Code::Long => "long",
            Code::Rows => "rows",
            Code::Format => "format",
            Code::Editions => "editions",
            Code::Bytes => "bytes",
            Code::Many => "many",
        }
    }
}
