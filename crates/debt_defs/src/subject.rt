//! What a change is about.
use gui_base::{Handle, Prop};

/// How far what styles give to an object reaches.
#[derive(Clone, Copy)]
pub enum Reach {
    /// As far as this property is inherited.
    OfProp(Prop),
    /// As far as what this style sets is inherited.
    OfStyle(u16),
}

/// What a change is about: the object that it names first, the objects that it may concern, what it does to the
/// trees, and the styles that it touches.
#[derive(Clone, Copy)]
pub enum Subject {
    /// What this object has by itself: its row, or its text.
    Own(Handle),
    /// What this object has, and what all below it depend on.
    Spread(Handle),
    /// What styles give to this object.
    Styled(Handle, Reach),
    /// What a shared style gives for this property.
    Shared(u16, Prop),
    /// This screen comes.
    Made(Handle),
    /// The first object comes, the last child of the second.
    Comes(Handle, Handle),
    /// This object goes, with all below it.
    Goes(Handle),
    /// The first object goes below the second, with all below it.
    Moves(Handle, Handle),
    /// This object goes elsewhere among its siblings.
    Among(Handle),
    /// This screen is shown.
    Loads(Handle),
    /// No object.
    Nobody,
}
