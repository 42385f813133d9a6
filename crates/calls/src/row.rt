// The calls on one row. The tests of each stand in the order of document 01.
ghost use Rattle.std.specs.Prelude.{ℕ, List, ◌≡◌, ◌≢◌, true, length, OnOk, IfOk, IfErr};
ghost use Rattle.sdp.specs.Text.{read_text};
ghost use Rattle.flow.specs.Before.{before_of};
ghost use Rattle.flow.specs.Derive.{derived};
ghost use Rattle.flow.specs.Fit.{said};
ghost use Rattle.flow.specs.Range.{held_rates};
ghost use Rattle.book.specs.declared.refusal.Refusal.TheVariants.{OfferOpen, NoneOpen, NotCompleted};
ghost use Rattle.book.specs.Calls.{no_offer, fresh_row, barred, offer_step, answer_books, answer_step, cancel_step, close_step, is_asked, bearer_step, statement_step, statement_into};
ghost use Rattle.book.specs.Refusing.{number_of};
ghost use Rattle.calls.specs.Given.{or_stays, or_refused};

use crate::change;
use book::{Offer, Refusal, Refused, Reply, Row, Seen, Stepped};
use booking::{pool, sums};
use flow::{Asked, Descriptions, Held, Limit, Settings};
use policy::{before, exchange};
use rules::{bearing, fitting};

fn no_offer() -> Offer
    ensures { result ≡ no_offer }
{
    Offer {
        present: 0,
        origin: 0,
        said: Descriptions {
            count: 0,
            media: [sdp::no_media(); 8],
        },
    }
}

// A row of a book that nothing has touched, and of a session that was closed.
pub fn fresh() -> Row
    ensures { result ≡ fresh_row }
{
    Row {
        held: exchange::fresh(),
        offer: no_offer(),
    }
}

// What a good text says.
fn said(text: &[u8]) -> Result<Descriptions, Refused>
    ensures ok { IfOk result (λ d. ((read_text text.now).refusal ≡ 0) × (d ≡ said (read_text text.now))) }
    ensures err { IfErr result (λ e. ((read_text text.now).refusal ≢ 0)
        × (e ≡ record { refusal = (read_text text.now).refusal; place = (read_text text.now).place })) }
{
    let t = reader::read(text);
    if t.refusal != 0 {
        return Err(Refused {
            refusal: t.refusal.into(),
            place: t.place.into(),
        });
    }
    Ok(fitting::said_in(&t))
}

// What the session would hold after the answer; where that is of a good text, its rates are in range.
fn derive(settings: Settings, held: Held, offer: Offer, answer: Descriptions) -> Held
    ensures value { result ≡ derived settings offer.origin (before_of held) offer.said answer }
    ensures in_range { (t : List ℕ) → (read_text t).refusal ≡ 0 → answer ≡ said (read_text t) → held_rates result ≡ true }
{
    let before = before::before_of(&held);
    exchange::derive(
        &settings,
        offer.origin.into(),
        &before,
        &offer.said,
        &answer,
    )
}

#[tactic(auto, unfolding(book::specs::Calls::is_asked))]
fn is_asked(class: u64) -> bool
    ensures { result ≡ is_asked class }
{
    matches!(class, 2 | 4 | 6 | 8 | 9)
}

// The row that a call names, and what the look at all rows saw.
#[derive(Clone, Copy)]
pub struct Named {
    pub row: Row,
    pub seen: Seen,
}

impl Named {
    pub fn offer(self, origin: u64, text: &[u8]) -> Stepped
        ensures { result ≡ offer_step self.row self.seen origin text.now }
    {
        self.or_stay(self.offered(origin, text))
    }

    pub fn answer(self, settings: Settings, text: &[u8]) -> Stepped
        ensures { result ≡ answer_step self.row self.seen settings text.now }
    {
        self.or_stay(self.answered(settings, text))
    }

    pub fn cancel(self) -> Stepped
        ensures { result ≡ cancel_step self.row self.seen }
    {
        self.or_stay(self.cancelled())
    }

    pub fn close(self) -> Stepped
        ensures { result ≡ close_step self.row self.seen }
    {
        self.or_stay(self.closed())
    }

    pub fn bearer(self, asked: Asked) -> Reply
        ensures { result ≡ bearer_step self.row self.seen asked }
    {
        self.granted(asked).unwrap_or_else(Reply::from)
    }

    pub fn statement(self, out: &mut [u8]) -> Reply
        ensures value { result ≡ statement_step self.row self.seen (length out.old) }
        ensures out_after { out.new ≡ statement_into self.row self.seen out.old }
    {
        self.stated(out).unwrap_or_else(Reply::from)
    }

    #[tactic(auto, unfolding(book::specs::Calls::offer_step, book::specs::Calls::offer_said))]
    fn offered(&self, origin: u64, text: &[u8]) -> Result<Stepped, Refused>
        ensures { or_stays self.now.row result ≡ offer_step self.now.row self.now.seen origin text.now }
    {
        self.bar(origin <= 1)?;
        self.nothing_open()?;
        let said = said(text)?;
        if said.count < self.row.held.count {
            return Err(Refusal::FewerLines.into());
        }
        Ok(Stepped {
            row: Row {
                held: self.row.held,
                offer: Offer {
                    present: 1,
                    origin: origin as u16,
                    said,
                },
            },
            reply: Reply::ACCEPTED,
        })
    }

    #[tactic(auto, unfolding(book::specs::Calls::answer_step, book::specs::Calls::answer_said))]
    fn answered(&self, settings: Settings, text: &[u8]) -> Result<Stepped, Refused>
        ensures { or_stays self.now.row result ≡ answer_step self.now.row self.now.seen settings text.now }
    {
        self.bar(true)?;
        let offer = self.open_offer()?;
        let said = said(text)?;
        let fit = fitting::fit(&offer.said, &said);
        if fit.refusal != 0 {
            return Err(Refused {
                refusal: Refusal::Misfit.into(),
                place: fit.place,
            });
        }
        self.booked(settings.pool, derive(settings, self.row.held, *offer, said))
    }

    #[tactic(auto, unfolding(book::specs::Calls::cancel_step))]
    fn cancelled(&self) -> Result<Stepped, Refused>
        ensures { or_stays self.now.row result ≡ cancel_step self.now.row self.now.seen }
    {
        self.bar(true)?;
        self.open_offer()?;
        Ok(Stepped {
            row: Row {
                held: self.row.held,
                offer: no_offer(),
            },
            reply: Reply::ACCEPTED,
        })
    }

    #[tactic(auto, unfolding(book::specs::Calls::close_step))]
    fn closed(&self) -> Result<Stepped, Refused>
        ensures { or_stays self.now.row result ≡ close_step self.now.row self.now.seen }
    {
        self.bar(true)?;
        self.nothing_open()?;
        let held = self.completed()?;
        Ok(Stepped {
            row: fresh(),
            reply: change::reply(sums::no_rates(), sums::rates_of(held)),
        })
    }

    #[tactic(auto, unfolding(book::specs::Calls::bearer_step))]
    fn granted(&self, asked: Asked) -> Result<Reply, Refused>
        ensures { or_refused result ≡ bearer_step self.now.row self.now.seen asked }
    {
        self.bar(is_asked(asked.class))?;
        let held = self.completed()?;
        Ok(bearing::authorise(held, asked).into())
    }

    #[tactic(auto, unfolding(book::specs::Calls::statement_step, book::specs::Calls::statement_into, statement::specs::Statement::after, statement::specs::Statement::written))]
    fn stated(&self, out: &mut [u8]) -> Result<Reply, Refused>
        ensures value { or_refused result ≡ statement_step self.now.row self.now.seen (length out.old) }
        ensures out_after { out.new ≡ statement_into self.now.row self.now.seen out.old }
    {
        self.bar(true)?;
        let held = self.completed()?;
        Ok(stating::write(held, out).into())
    }

    // A refusal leaves the row as it was.
    fn or_stay(&self, stepped: Result<Stepped, Refused>) -> Stepped
        ensures { result ≡ or_stays self.now.row stepped }
    {
        stepped.unwrap_or_else(|refused| Stepped {
            row: self.row,
            reply: refused.into(),
        })
    }

    #[tactic(auto, unfolding(book::specs::Calls::barred))]
    fn bar(&self, well: bool) -> Result<(), Refusal>
        ensures ok { OnOk result (barred self.now.seen self.now.row well ≡ 0) }
        ensures err { IfErr result (λ e. (barred self.now.seen self.now.row well ≢ 0)
            × (barred self.now.seen self.now.row well ≡ number_of e)) }
    {
        if !matches!(self.seen.rows, 1..=16) || !well {
            return Err(Refusal::Argument);
        }
        if self.seen.sound == 0 || !sums::held_rates(&self.row.held) {
            return Err(Refusal::OutOfRange);
        }
        Ok(())
    }

    fn nothing_open(&self) -> Result<(), Refusal>
        ensures ok { OnOk result (self.now.row.offer.present ≡ 0) }
        ensures err { IfErr result (λ e. (self.now.row.offer.present ≢ 0) × (e ≡ OfferOpen)) }
    {
        if self.row.offer.present != 0 {
            return Err(Refusal::OfferOpen);
        }
        Ok(())
    }

    fn open_offer(&self) -> Result<&Offer, Refusal>
        ensures ok { IfOk result (λ o. (self.now.row.offer.present ≢ 0) × (o.now ≡ self.now.row.offer)) }
        ensures err { IfErr result (λ e. (self.now.row.offer.present ≡ 0) × (e ≡ NoneOpen)) }
    {
        if self.row.offer.present == 0 {
            return Err(Refusal::NoneOpen);
        }
        Ok(&self.row.offer)
    }

    fn completed(&self) -> Result<&Held, Refusal>
        ensures ok { IfOk result (λ h. (self.now.row.held.completed ≢ 0) × (h.now ≡ self.now.row.held)) }
        ensures err { IfErr result (λ e. (self.now.row.held.completed ≡ 0) × (e ≡ NotCompleted)) }
    {
        if self.row.held.completed == 0 {
            return Err(Refusal::NotCompleted);
        }
        Ok(&self.row.held)
    }

    // The pool comes last: what the session would hold is booked, or 16.
    #[tactic(auto, unfolding(book::specs::Calls::answer_books))]
    fn booked(&self, pool: Limit, held: Held) -> Result<Stepped, Refused>
        ensures { held_rates self.now.row.held ≡ true → held_rates held ≡ true
            → or_stays self.now.row result ≡ answer_books self.now.row self.now.seen pool held }
    {
        let old = sums::rates_of(&self.row.held);
        let new = sums::rates_of(&held);
        if pool::is_above(pool, self.seen.booked, old, new) {
            return Err(Refusal::AbovePool.into());
        }
        Ok(Stepped {
            row: Row {
                held,
                offer: no_offer(),
            },
            reply: change::reply(new, old),
        })
    }
}
