//! Which views of rooms can be written, and what does a cursor keep while a room goes on?

ghost use Rattle.hb_view.specs.StreamLaws.{CursorsGoOn, ViewsAreStreams};

/// A law, with no work to do: the view of each member of a room in which a table was opened can be
/// written, and a cursor that has written the items of such a view has written them of each later
/// view of the same table for the same viewer. So a caller that hands each answer of a room to
/// [`pump`](crate::pump) meets its premises.
pub fn views_are_streams()
    ensures streams { ViewsAreStreams }
    ensures cursors { CursorsGoOn }
{}
