//! What became of a frame.
ghost use Rattle.std.specs.Prelude.{◌≡◌};
ghost use Rattle.aoe_base.specs.declared.sectors.Span.{Span};
ghost use Rattle.aoe_target.specs.Told.{heard_as, NamesIn};

use aoe_base::Span;

/// What a frame did to a target that replied to it.
#[derive(Clone, Copy, PartialEq, Eq, Hash)]
pub enum Effect {
    /// Nothing: the lists and the sectors are as they were.
    None,
    /// The sectors have the data of the frame.
    Wrote(Span),
    /// The store is synced.
    Synced,
    /// The lists are others.
    Edited,
    /// A write failed: its sectors may have any bytes.
    WriteFault(Span),
    /// A read failed.
    ReadFault,
    /// A sync failed.
    SyncFault,
    /// The keep failed: the lists are as they were, and a crash may leave the next ones.
    EditFault,
}

/// What became of a frame that a target was handed.
#[derive(Clone, Copy, PartialEq, Eq, Hash)]
pub enum Heard {
    /// It isn't for this target.
    Ignored,
    /// It is for this target, and gets no reply.
    Silent,
    /// It got a reply.
    Replied { effect: Effect },
}

/// What became of a frame, but for the sectors of a write. It is small enough for a register.
#[derive(Clone, Copy)]
pub(crate) enum Told {
    Ignored,
    Silent,
    Replied,
    Wrote,
    Synced,
    Edited,
    WriteFault,
    ReadFault,
    SyncFault,
    EditFault,
}

/// What became of a frame, with the sectors of a write.
#[inline(always)]
pub(crate) fn heard_of(told: Told, span: Span) -> Heard
    ensures { result ≡ heard_as told span }
{
    let effect = match told {
        Told::Ignored => return Heard::Ignored,
        Told::Silent => return Heard::Silent,
        Told::Replied => Effect::None,
        Told::Wrote => Effect::Wrote(span),
        Told::Synced => Effect::Synced,
        Told::Edited => Effect::Edited,
        Told::WriteFault => Effect::WriteFault(span),
        Told::ReadFault => Effect::ReadFault,
        Told::SyncFault => Effect::SyncFault,
        Told::EditFault => Effect::EditFault,
    };
    Heard::Replied { effect }
}

/// The same the other way round, without the sectors of a write.
#[inline(always)]
pub(crate) fn tell_of(heard: Heard) -> Told
    ensures { (span : Span) → NamesIn heard span → heard_as result span ≡ heard }
{
    match heard {
        Heard::Ignored => Told::Ignored,
        Heard::Silent => Told::Silent,
        Heard::Replied { effect } => match effect {
            Effect::None => Told::Replied,
            Effect::Wrote(_) => Told::Wrote,
            Effect::Synced => Told::Synced,
            Effect::Edited => Told::Edited,
            Effect::WriteFault(_) => Told::WriteFault,
            Effect::ReadFault => Told::ReadFault,
            Effect::SyncFault => Told::SyncFault,
            Effect::EditFault => Told::EditFault,
        },
    }
}
