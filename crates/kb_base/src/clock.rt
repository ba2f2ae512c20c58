//! The time.
ghost use Rattle.std.specs.Prelude.{List, Option};
ghost use Rattle.kb_base.specs.Moments.{TellsMoment};
ghost use Rattle.krb_names.specs.declared.moment.Moment.{Moment};

use krb_names::Moment;

/// A clock, which has no faults.
pub trait Clock {
    ghost moments: { Self → Option (List Moment) };

    /// The moment that it is.
    fn now(&mut self) -> Moment
        ensures { TellsMoment (moments self.old) (moments self.new) result };
}
