//! Who is to receive a publication: `exclude_me`, and the six lists of a PUBLISH.
ghost use Rattle.std.specs.Prelude.{◌≡◌, ◌==◌, ◌&&◌, ◌||◌, true, false, not, is_none, IfOk, None, Some};
ghost use Rattle.std.specs.Option.{option_and_then};
ghost use Rattle.message_tree.specs.Data.{no_entries};
ghost use Rattle.message_tree.specs.View.{dict_view};
ghost use Rattle.eligibility.specs.Lists.{audience_of, audience_of_values, everyone, admits, has_no_lists, names_nobody, is_empty, has_number, has_text, is_free_of, allows};
ghost use Rattle.eligibility.specs.declared.who.Who.{Who};

use crate::fault::Fault;
use crate::numbers::Numbers;
use crate::options::{flag_of, numbers_of, texts_of};
use crate::texts::Texts;
use crate::trees::{flag_at, numbers_at, texts_at};
use crate::values::ListOptions;
use crate::who::Who;
use message_tree::{Dict, Shared, Text};
use std::alloc::{AllocError, Global};
use std::marker::Model;
use wamp_ids::{Conn, Id};

/// The six lists, of which at least one is given.
#[derive(Drop)]
struct Named {
    exclude: Option<Numbers>,
    exclude_authid: Option<Texts>,
    exclude_authrole: Option<Texts>,
    eligible: Option<Numbers>,
    eligible_authid: Option<Texts>,
    eligible_authrole: Option<Texts>,
}

/// Who is to receive a publication: the options of a PUBLISH that speak of it (WAMP, "Subscriber
/// Black- and Whitelisting", "Publisher Exclusion"). Most publications give none of the lists, and
/// each carries one of these: so the lists stand apart, and copies of a publication share them.
#[derive(Drop)]
pub struct Lists {
    exclude_me: bool,
    named: Option<Shared<Named>>,
}

impl Model for Lists {
    ghost use Rattle.std.specs.Option.{option_and_then};
    ghost use Rattle.eligibility.specs.Lists.{Audience};

    ghost Value = { Audience };

    ghost view = { λ l. record {
      exclude_me = l.exclude_me;
      exclude = option_and_then (λ n. n.exclude) l.named;
      exclude_authid = option_and_then (λ n. n.exclude_authid) l.named;
      exclude_authrole = option_and_then (λ n. n.exclude_authrole) l.named;
      eligible = option_and_then (λ n. n.eligible) l.named;
      eligible_authid = option_and_then (λ n. n.eligible_authid) l.named;
      eligible_authrole = option_and_then (λ n. n.eligible_authrole) l.named;
    } };
}

impl Named {
    /// These lists in a place of their own, or nothing where none of them is given.
    fn apart(self, alloc: Global) -> Result<Option<Shared<Named>>, AllocError>
        ensures exclude { IfOk result (λ apart.
            option_and_then (λ n. n.exclude) apart ≡ self.exclude) }
        ensures exclude_authid { IfOk result (λ apart.
            option_and_then (λ n. n.exclude_authid) apart ≡ self.exclude_authid) }
        ensures exclude_authrole { IfOk result (λ apart.
            option_and_then (λ n. n.exclude_authrole) apart ≡ self.exclude_authrole) }
        ensures eligible { IfOk result (λ apart.
            option_and_then (λ n. n.eligible) apart ≡ self.eligible) }
        ensures eligible_authid { IfOk result (λ apart.
            option_and_then (λ n. n.eligible_authid) apart ≡ self.eligible_authid) }
        ensures eligible_authrole { IfOk result (λ apart.
            option_and_then (λ n. n.eligible_authrole) apart ≡ self.eligible_authrole) }
    {
        if self.is_empty() {
            return Ok(None);
        }
        Ok(Some(Shared::new(alloc, self)?))
    }

    fn is_empty(&self) -> bool
        ensures { result ≡ (is_none self.now.exclude && is_none self.now.exclude_authid
            && is_none self.now.exclude_authrole && is_none self.now.eligible
            && is_none self.now.eligible_authid && is_none self.now.eligible_authrole) }
    {
        self.exclude.is_none()
            && self.exclude_authid.is_none()
            && self.exclude_authrole.is_none()
            && self.eligible.is_none()
            && self.eligible_authid.is_none()
            && self.eligible_authrole.is_none()
    }

    /// Whether one of the eligible lists is empty.
    fn names_nobody(&self) -> bool
        ensures { result ≡ (is_empty self.now.eligible || is_empty self.now.eligible_authid
            || is_empty self.now.eligible_authrole) }
    {
        are_no_numbers(&self.eligible)
            || are_no_texts(&self.eligible_authid)
            || are_no_texts(&self.eligible_authrole)
    }
}

impl Lists {
    /// What a PUBLISH without options says: everyone but its publisher.
    #[tactic(auto, unfolding(crate::specs::Lists::audience_of))]
    pub fn everyone() -> Lists
        ensures value { result ≡ everyone }
        ensures no_options { audience_of no_entries ≡ Some result }
    {
        Lists {
            exclude_me: true,
            named: None,
        }
    }

    /// What the options of a PUBLISH say: `exclude_me` and the six lists, each of which may be
    /// absent or null. Other options are passed over, and a number that is no id names nobody.
    ///
    /// # Errors
    /// [`Fault::Shape`] where one of the seven has a wrong type, [`Fault::NoMemory`] where a growth
    /// was refused.
    #[tactic(auto, unfolding(crate::specs::Lists::audience_of))]
    pub fn read(alloc: Global, options: &Dict) -> Result<Lists, Fault>
        ensures ok { IfOk result (λ l. audience_of (dict_view options.now) ≡ Some l) }
        ensures bad { result ≡ Err Fault.Shape → audience_of (dict_view options.now) ≡ None }
    {
        if options.is_empty() {
            return Ok(Lists::everyone());
        }
        let exclude_me = flag_at(options, "exclude_me", true)?;
        let named = Named {
            exclude: numbers_at(alloc, options, "exclude")?,
            exclude_authid: texts_at(alloc, options, "exclude_authid")?,
            exclude_authrole: texts_at(alloc, options, "exclude_authrole")?,
            eligible: numbers_at(alloc, options, "eligible")?,
            eligible_authid: texts_at(alloc, options, "eligible_authid")?,
            eligible_authrole: texts_at(alloc, options, "eligible_authrole")?,
        };
        Ok(Lists {
            exclude_me,
            named: named.apart(alloc)?,
        })
    }

    /// What the options say, as [`Lists::read`]. They are spent.
    ///
    /// # Errors
    /// As [`Lists::read`].
    pub fn take(alloc: Global, options: Dict) -> Result<Lists, Fault>
        ensures ok { IfOk result (λ l. audience_of (dict_view options) ≡ Some l) }
        ensures bad { result ≡ Err Fault.Shape → audience_of (dict_view options) ≡ None }
    {
        Lists::read(alloc, &options)
    }

    /// What the seven options say where they stand in a message, as [`Lists::read`]; `None` where
    /// one has a wrong type. No tree is made of them: it takes at most 5 octets for each octet of
    /// the lists, and 3,000 more for each list of numbers.
    ///
    /// # Errors
    /// `AllocError` where a growth was refused.
    pub fn of_values(alloc: Global, options: &ListOptions<'_>) -> Result<Option<Lists>, AllocError>
        ensures { IfOk result (λ lists. lists ≡ audience_of_values options.now) }
    {
        match Lists::of_options(alloc, options) {
            Ok(lists) => Ok(Some(lists)),
            Err(Fault::Shape) => Ok(None),
            Err(Fault::NoMemory) => Err(AllocError),
        }
    }

    fn of_options(alloc: Global, options: &ListOptions<'_>) -> Result<Lists, Fault>
        ensures ok { IfOk result (λ l. audience_of_values options.now ≡ Some l) }
        ensures bad { result ≡ Err Fault.Shape → audience_of_values options.now ≡ None }
    {
        let exclude_me = flag_of(&options.exclude_me, true)?;
        let named = Named {
            exclude: numbers_of(alloc, &options.exclude)?,
            exclude_authid: texts_of(alloc, &options.exclude_authid)?,
            exclude_authrole: texts_of(alloc, &options.exclude_authrole)?,
            eligible: numbers_of(alloc, &options.eligible)?,
            eligible_authid: texts_of(alloc, &options.eligible_authid)?,
            eligible_authrole: texts_of(alloc, &options.eligible_authrole)?,
        };
        Ok(Lists {
            exclude_me,
            named: named.apart(alloc)?,
        })
    }

    /// The same options, which share the lists.
    ///
    /// # Errors
    /// `AllocError` where a count of holders can't grow.
    pub fn twin(&self) -> Result<Lists, AllocError>
        ensures { IfOk result (λ lists. lists ≡ self.now) }
    {
        let named = match &self.named {
            None => None,
            Some(named) => Some(named.twin()?),
        };
        Ok(Lists {
            exclude_me: self.exclude_me,
            named,
        })
    }

    /// Whether none of the six lists is given, so that [`Lists::admits_without_lists`] tells who is
    /// admitted.
    pub fn has_no_lists(&self) -> bool
        ensures { result ≡ has_no_lists self.now }
    {
        match &self.named {
            None => true,
            Some(named) => named.value().is_empty(),
        }
    }

    /// Whether a session on this connection is to get what one on that connection publishes, where
    /// none of the six lists is given: nobody has to be looked up for it.
    pub fn admits_without_lists(&self, conn: Conn, publisher: Conn) -> bool
        requires { has_no_lists self.now ≡ true }
        ensures { (who by : Who) → who.conn ≡ conn → by.conn ≡ publisher
            → admits self.now who by ≡ result }
    {
        !(conn == publisher && self.exclude_me)
    }

    /// Whether one of the eligible lists is empty, so that nobody is admitted, and no receiver has
    /// to be looked for.
    pub fn admits_nobody(&self) -> bool
        ensures value { result ≡ names_nobody self.now }
        ensures nobody { result ≡ true → (who by : Who) → admits self.now who by ≡ false }
    {
        match &self.named {
            None => false,
            Some(named) => named.value().names_nobody(),
        }
    }

    /// Whether this receiver is to get what that publisher publishes. The publisher itself is known
    /// by its connection.
    pub fn admits(&self, who: &Who, publisher: &Who) -> bool
        ensures { result ≡ admits self.now who.now publisher.now }
    {
        self.lists_admit(who) && !(who.conn == publisher.conn && self.exclude_me)
    }

    /// Whether none of the six lists leaves this receiver out.
    fn lists_admit(&self, who: &Who) -> bool
        ensures { (publisher : Who) → admits self.now who.now publisher
            ≡ (result && not (who.now.conn == publisher.conn && self.now.exclude_me)) }
    {
        let Some(named) = &self.named else {
            return true;
        };
        let named = named.value();
        is_free_of_number(&named.exclude, who.id)
            && is_free_of_text(&named.exclude_authid, who.authid.value())
            && is_free_of_text(&named.exclude_authrole, who.authrole.value())
            && allows_number(&named.eligible, who.id)
            && allows_text(&named.eligible_authid, who.authid.value())
            && allows_text(&named.eligible_authrole, who.authrole.value())
    }
}

/// Whether a list of ids is given, and is empty.
fn are_no_numbers(numbers: &Option<Numbers>) -> bool
    ensures { result ≡ is_empty numbers.now }
{
    match numbers {
        None => false,
        Some(numbers) => numbers.is_empty(),
    }
}

/// Whether a list of texts is given, and is empty.
fn are_no_texts(texts: &Option<Texts>) -> bool
    ensures { result ≡ is_empty texts.now }
{
    match texts {
        None => false,
        Some(texts) => texts.is_empty(),
    }
}

fn is_free_of_number(numbers: &Option<Numbers>, id: Id) -> bool
    ensures { result ≡ is_free_of (has_number id) numbers.now }
{
    match numbers {
        None => true,
        Some(numbers) => !numbers.has(id),
    }
}

fn is_free_of_text(texts: &Option<Texts>, of: &Text) -> bool
    ensures { result ≡ is_free_of (has_text of.now) texts.now }
{
    match texts {
        None => true,
        Some(texts) => !texts.has(of),
    }
}

fn allows_number(numbers: &Option<Numbers>, id: Id) -> bool
    ensures { result ≡ allows (has_number id) numbers.now }
{
    match numbers {
        None => true,
        Some(numbers) => numbers.has(id),
    }
}

fn allows_text(texts: &Option<Texts>, of: &Text) -> bool
    ensures { result ≡ allows (has_text of.now) texts.now }
{
    match texts {
        None => true,
        Some(texts) => texts.has(of),
    }
}
