//! The reserved words of the language.
ghost use Rattle.std.specs.Prelude.{◌≡◌, find, nat_eq, option_map};
ghost use Rattle.std.specs.Str.{str_eq_ignore_ascii_case};
ghost use Rattle.td_tree.specs.code.Initials.{AreInitials};
ghost use Rattle.td_tree.specs.model.Keywords.{keyword_of, word_of};

/// A reserved word. In a script it may stand in any ASCII case.
#[derive(Clone, Copy, Debug, PartialEq, Eq)]
pub enum Keyword {
    Add,
    All,
    And,
    As,
    Base,
    Begin,
    Boolean,
    But,
    By,
    Char,
    Commit,
    Compose,
    Constraint,
    Count,
    Delete,
    Drop,
    Dump,
    DInsert,
    DUnion,
    Else,
    End,
    Extend,
    False,
    From,
    Group,
    If,
    In,
    Init,
    Insert,
    Integer,
    Intersect,
    IsEmpty,
    IDelete,
    IMinus,
    Join,
    Key,
    Matching,
    Max,
    Min,
    Minus,
    Not,
    Or,
    Per,
    Possrep,
    Real,
    Relation,
    Rename,
    Rollback,
    Sum,
    Summarize,
    TableDee,
    TableDum,
    Tclose,
    Then,
    Times,
    Transaction,
    True,
    Tuple,
    Type,
    Ungroup,
    Union,
    Unwrap,
    Update,
    Var,
    Virtual,
    Where,
    With,
    Wrap,
    Write,
}

impl Keyword {
    /// Every reserved word, in alphabetical order.
    pub const ALL: [Keyword; 69] = [
        Keyword::Add,
        Keyword::All,
        Keyword::And,
        Keyword::As,
        Keyword::Base,
        Keyword::Begin,
        Keyword::Boolean,
        Keyword::But,
        Keyword::By,
        Keyword::Char,
        Keyword::Commit,
        Keyword::Compose,
        Keyword::Constraint,
        Keyword::Count,
        Keyword::Delete,
        Keyword::Drop,
        Keyword::Dump,
        Keyword::DInsert,
        Keyword::DUnion,
        Keyword::Else,
        Keyword::End,
        Keyword::Extend,
        Keyword::False,
        Keyword::From,
        Keyword::Group,
        Keyword::If,
        Keyword::In,
        Keyword::Init,
        Keyword::Insert,
        Keyword::Integer,
        Keyword::Intersect,
        Keyword::IsEmpty,
        Keyword::IDelete,
        Keyword::IMinus,
        Keyword::Join,
        Keyword::Key,
        Keyword::Matching,
        Keyword::Max,
        Keyword::Min,
        Keyword::Minus,
        Keyword::Not,
        Keyword::Or,
        Keyword::Per,
        Keyword::Possrep,
        Keyword::Real,
        Keyword::Relation,
        Keyword::Rename,
        Keyword::Rollback,
        Keyword::Sum,
        Keyword::Summarize,
        Keyword::TableDee,
        Keyword::TableDum,
        Keyword::Tclose,
        Keyword::Then,
        Keyword::Times,
        Keyword::Transaction,
        Keyword::True,
        Keyword::Tuple,
        Keyword::Type,
        Keyword::Ungroup,
        Keyword::Union,
        Keyword::Unwrap,
        Keyword::Update,
        Keyword::Var,
        Keyword::Virtual,
        Keyword::Where,
        Keyword::With,
        Keyword::Wrap,
        Keyword::Write,
    ];

    /// The word in capitals, as answers and dumps print it.
    pub fn word(self) -> &'static str
        ensures { result.now ≡ word_of self }
    {
        match self {
            Keyword::Add => "ADD",
            Keyword::All => "ALL",
            Keyword::And => "AND",
            Keyword::As => "AS",
            Keyword::Base => "BASE",
            Keyword::Begin => "BEGIN",
            Keyword::Boolean => "BOOLEAN",
            Keyword::But => "BUT",
            Keyword::By => "BY",
            Keyword::Char => "CHAR",
            Keyword::Commit => "COMMIT",
            Keyword::Compose => "COMPOSE",
            Keyword::Constraint => "CONSTRAINT",
            Keyword::Count => "COUNT",
            Keyword::Delete => "DELETE",
            Keyword::Drop => "DROP",
            Keyword::Dump => "DUMP",
            Keyword::DInsert => "D_INSERT",
            Keyword::DUnion => "D_UNION",
            Keyword::Else => "ELSE",
            Keyword::End => "END",
            Keyword::Extend => "EXTEND",
            Keyword::False => "FALSE",
            Keyword::From => "FROM",
            Keyword::Group => "GROUP",
            Keyword::If => "IF",
            Keyword::In => "IN",
            Keyword::Init => "INIT",
            Keyword::Insert => "INSERT",
            Keyword::Integer => "INTEGER",
            Keyword::Intersect => "INTERSECT",
            Keyword::IsEmpty => "IS_EMPTY",
            Keyword::IDelete => "I_DELETE",
            Keyword::IMinus => "I_MINUS",
            Keyword::Join => "JOIN",
            Keyword::Key => "KEY",
            Keyword::Matching => "MATCHING",
            Keyword::Max => "MAX",
            Keyword::Min => "MIN",
            Keyword::Minus => "MINUS",
            Keyword::Not => "NOT",
            Keyword::Or => "OR",
            Keyword::Per => "PER",
            Keyword::Possrep => "POSSREP",
            Keyword::Real => "REAL",
            Keyword::Relation => "RELATION",
            Keyword::Rename => "RENAME",
            Keyword::Rollback => "ROLLBACK",
            Keyword::Sum => "SUM",
            Keyword::Summarize => "SUMMARIZE",
            Keyword::TableDee => "TABLE_DEE",
            Keyword::TableDum => "TABLE_DUM",
            Keyword::Tclose => "TCLOSE",
            Keyword::Then => "THEN",
            Keyword::Times => "TIMES",
            Keyword::Transaction => "TRANSACTION",
            Keyword::True => "TRUE",
            Keyword::Tuple => "TUPLE",
            Keyword::Type => "TYPE",
            Keyword::Ungroup => "UNGROUP",
            Keyword::Union => "UNION",
            Keyword::Unwrap => "UNWRAP",
            Keyword::Update => "UPDATE",
            Keyword::Var => "VAR",
            Keyword::Virtual => "VIRTUAL",
            Keyword::Where => "WHERE",
            Keyword::With => "WITH",
            Keyword::Wrap => "WRAP",
            Keyword::Write => "WRITE",
        }
    }

    /// Whether these bytes are the word in some ASCII case.
    pub fn is_spelled_by(self, text: &[u8]) -> bool
        ensures { result ≡ str_eq_ignore_ascii_case (word_of self) text.now }
    {
        self.word().as_bytes().eq_ignore_ascii_case(text)
    }

    /// The reserved word that these bytes spell in some ASCII case.
    pub fn of_word(text: &[u8]) -> Option<Keyword>
        ensures { result ≡ keyword_of text.now }
    {
        word_among(&INITIALS, text)
    }
}

/// The reserved words that begin with a letter, which is in lower case.
struct Initial {
    letter: u8,
    keywords: &'static [Keyword],
}

/// Every reserved word under its first letter.
const INITIALS: [Initial; 20] = [
    Initial {
        letter: b'a',
        keywords: &[Keyword::Add, Keyword::All, Keyword::And, Keyword::As],
    },
    Initial {
        letter: b'b',
        keywords: &[
            Keyword::Base,
            Keyword::Begin,
            Keyword::Boolean,
            Keyword::But,
            Keyword::By,
        ],
    },
    Initial {
        letter: b'c',
        keywords: &[
            Keyword::Char,
            Keyword::Commit,
            Keyword::Compose,
            Keyword::Constraint,
            Keyword::Count,
        ],
    },
    Initial {
        letter: b'd',
        keywords: &[
            Keyword::Delete,
            Keyword::Drop,
            Keyword::Dump,
            Keyword::DInsert,
            Keyword::DUnion,
        ],
    },
    Initial {
        letter: b'e',
        keywords: &[Keyword::Else, Keyword::End, Keyword::Extend],
    },
    Initial {
        letter: b'f',
        keywords: &[Keyword::False, Keyword::From],
    },
    Initial {
        letter: b'g',
        keywords: &[Keyword::Group],
    },
    Initial {
        letter: b'i',
        keywords: &[
            Keyword::If,
            Keyword::In,
            Keyword::Init,
            Keyword::Insert,
            Keyword::Integer,
            Keyword::Intersect,
            Keyword::IsEmpty,
            Keyword::IDelete,
            Keyword::IMinus,
        ],
    },
    Initial {
        letter: b'j',
        keywords: &[Keyword::Join],
    },
    Initial {
        letter: b'k',
        keywords: &[Keyword::Key],
    },
    Initial {
        letter: b'm',
        keywords: &[
            Keyword::Matching,
            Keyword::Max,
            Keyword::Min,
            Keyword::Minus,
        ],
    },
    Initial {
        letter: b'n',
        keywords: &[Keyword::Not],
    },
    Initial {
        letter: b'o',
        keywords: &[Keyword::Or],
    },
    Initial {
        letter: b'p',
        keywords: &[Keyword::Per, Keyword::Possrep],
    },
    Initial {
        letter: b'r',
        keywords: &[
            Keyword::Real,
            Keyword::Relation,
            Keyword::Rename,
            Keyword::Rollback,
        ],
    },
    Initial {
        letter: b's',
        keywords: &[Keyword::Sum, Keyword::Summarize],
    },
    Initial {
        letter: b't',
        keywords: &[
            Keyword::TableDee,
            Keyword::TableDum,
            Keyword::Tclose,
            Keyword::Then,
            Keyword::Times,
            Keyword::Transaction,
            Keyword::True,
            Keyword::Tuple,
            Keyword::Type,
        ],
    },
    Initial {
        letter: b'u',
        keywords: &[
            Keyword::Ungroup,
            Keyword::Union,
            Keyword::Unwrap,
            Keyword::Update,
        ],
    },
    Initial {
        letter: b'v',
        keywords: &[Keyword::Var, Keyword::Virtual],
    },
    Initial {
        letter: b'w',
        keywords: &[Keyword::Where, Keyword::With, Keyword::Wrap, Keyword::Write],
    },
];

/// The words of the letter, which is in lower case.
fn initial_of(initials: &[Initial], letter: u8) -> Option<&Initial>
    ensures { option_map (λ i. i.now) result ≡ find (λ i. nat_eq i.letter letter) initials.now }
{
    initials.iter().find(|initial| initial.letter == letter)
}

/// The reserved word that the bytes spell: it is among those that begin with their first letter.
fn word_among(initials: &[Initial], text: &[u8]) -> Option<Keyword>
    requires { AreInitials (λ i. i.letter) (λ i. i.keywords.now) initials.now }
    ensures { result ≡ keyword_of text.now }
{
    let initial = initial_of(initials, text.first()?.to_ascii_lowercase())?;
    first_spelled(initial.keywords, text)
}

/// The first of these words that the bytes spell.
fn first_spelled(keywords: &[Keyword], text: &[u8]) -> Option<Keyword>
    ensures { result ≡ find (λ k. str_eq_ignore_ascii_case (word_of k) text.now) keywords.now }
{
    for keyword in keywords {
        if keyword.is_spelled_by(text) {
            return Some(*keyword);
        }
    }
    None
}
