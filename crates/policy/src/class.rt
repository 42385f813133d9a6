// The class of a component, and the class that a session keeps for its audio and video (table 6.3.1, QCI).
ghost use Rattle.std.specs.Prelude.{◌≡◌, ◌||◌, eqb};
ghost use Rattle.sdp.specs.Media.{audio_kind, video_kind};
ghost use Rattle.flow.specs.Class.{class_of, talks, talked};
ghost use Rattle.flow.specs.Session.{no_component};
ghost use Rattle.policy.specs.Steps.{nothing_seen, sees, kept_by};

use flow::status::Status;
use flow::{Component, Was};
use sdp::media_line::Kind;

// What the components looked at so far have shown of live audio and video: whether there is any, any newly live or changed in
// kind, any that no longer is, and whether all are described up only, or down only.
#[derive(Clone, Copy)]
pub struct Sight {
    pub talks: bool,
    pub newly: bool,
    pub gone: bool,
    pub allup: bool,
    pub alldown: bool,
}

// Whether it is audio or video.
fn is_talk_kind(kind: u16) -> bool
    ensures { result ≡ (eqb kind audio_kind || eqb kind video_kind) }
{
    matches!(Kind::try_from(kind), Ok(Kind::Audio | Kind::Video))
}

// Whether it is live audio or video.
fn is_talk(now: &Component) -> bool
    ensures { result ≡ talks now.now }
{
    now.is_live() & is_talk_kind(now.kind)
}

// Whether it was.
fn was_talk(was: &Was) -> bool
    ensures { result ≡ talked was.now }
{
    (was.live != 0) & is_talk_kind(was.kind)
}

impl Sight {
    pub fn nothing() -> Sight
        ensures { result ≡ nothing_seen }
    {
        Sight {
            talks: false,
            newly: false,
            gone: false,
            allup: true,
            alldown: true,
        }
    }

    // With one component more, as it was and as it is now.
    pub fn with(self, was: &Was, now: &Component) -> Sight
        ensures { result ≡ sees self was.now now.now }
    {
        let before = was_talk(was);
        let after = is_talk(now);
        let up = now.up.is_described();
        let down = now.down.is_described();
        Sight {
            talks: self.talks | after,
            newly: self.newly | (after & (!before | (was.kind != now.kind))),
            gone: self.gone | (before & !after),
            allup: self.allup & (!after | (up & !down)),
            alldown: self.alldown & (!after | (down & !up)),
        }
    }

    // With one slot more that is unused now, so that only what was there can be gone.
    #[tactic(auto, using(crate::proofs::Answers::unused_seen))]
    pub fn with_unused(self, was: &Was) -> Sight
        ensures { result ≡ sees self was.now no_component }
    {
        Sight {
            gone: self.gone | was_talk(was),
            ..self
        }
    }

    // The class kept from now on.
    pub fn kept(self, before: u16) -> u16
        ensures { result ≡ kept_by self before }
    {
        if !self.talks | (!self.newly & self.gone) {
            return before;
        }
        if self.allup | self.alldown {
            return 4;
        }
        2
    }
}

// The class by status, kind and the session's kept class.
#[tactic(auto, unfolding(flow::specs::Class::class_of))]
pub fn class_of(kept: u16, status: u16, kind: u16) -> u16
    ensures { result ≡ class_of kept status kind }
{
    if status == u16::from(Status::Removed) {
        return 0;
    }
    match Kind::try_from(kind) {
        Ok(Kind::Audio | Kind::Video) => kept,
        Ok(Kind::Application) => 2,
        Ok(Kind::Data) => 8,
        Ok(Kind::Control) => 6,
        _ => 9,
    }
}
