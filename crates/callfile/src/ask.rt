// A call as its line says it: a text is named by its number.
ghost use Rattle.std.specs.Prelude.{◌≡◌};
ghost use Rattle.callfile.specs.Ask.{letter, session, text_number, lacks_text};

use flow::Asked;

#[derive(Clone, Copy)]
pub enum Ask {
    Offer {
        session: u64,
        origin: u64,
        text: u64,
    },
    Answer {
        session: u64,
        text: u64,
    },
    Cancel {
        session: u64,
    },
    Close {
        session: u64,
    },
    Bearer {
        session: u64,
        asked: Asked,
    },
}

impl Ask {
    #[tactic(auto, unfolding(crate::specs::Ask::letter))]
    pub fn letter(self) -> u8
        ensures { result ≡ letter self }
    {
        match self {
            Ask::Offer { .. } => b'O',
            Ask::Answer { .. } => b'A',
            Ask::Cancel { .. } => b'C',
            Ask::Close { .. } => b'X',
            Ask::Bearer { .. } => b'B',
        }
    }

    #[tactic(auto, unfolding(crate::specs::Ask::session))]
    pub fn session(self) -> u64
        ensures { result ≡ session self }
    {
        match self {
            Ask::Offer { session, .. }
            | Ask::Answer { session, .. }
            | Ask::Cancel { session }
            | Ask::Close { session }
            | Ask::Bearer { session, .. } => session,
        }
    }

    // The number of the text of an offer and of an answer.
    #[tactic(auto, unfolding(crate::specs::Ask::text_number))]
    pub fn text(self) -> Option<u64>
        ensures { result ≡ text_number self }
    {
        match self {
            Ask::Offer { text, .. } | Ask::Answer { text, .. } => Some(text),
            _ => None,
        }
    }

    // Whether it names a text that is not among so many.
    #[tactic(auto, unfolding(crate::specs::Ask::lacks_text))]
    pub fn lacks_text(self, texts: u64) -> bool
        ensures { result ≡ lacks_text self texts }
    {
        match self {
            Ask::Offer { text, .. } | Ask::Answer { text, .. } => texts <= text,
            _ => false,
        }
    }
}
