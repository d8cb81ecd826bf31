//! Handlers in order, and their last slot.
use crate::checks::same;
use gui_base::{Handle, Pool, Refusal};
use gui_event::{Action, Aim, EventKind, Handlers};

#[test]
fn handlers_run_in_order(rt: HostRuntime) {
    let mut handlers = Handlers::open(rt.alloc(), 3).expect(&rt, "no memory");
    let h = Handle(10);
    let delete = Action::Delete(Aim::Target);
    let answers = [
        handlers.add_handler(h, EventKind::Clicked, delete),
        handlers.add_handler(h, EventKind::Pressed, Action::Say),
        handlers.add_handler(h, EventKind::Clicked, Action::Say),
        handlers.add_handler(Handle(11), EventKind::Key, Action::Say),
    ];
    let full = Err(Refusal::Full(Pool::Handlers));
    same(&rt, &answers, &[Ok(()), Ok(()), Ok(()), full]);
    let clicked = [
        handlers.nth(h, EventKind::Clicked, 0),
        handlers.nth(h, EventKind::Clicked, 1),
        handlers.nth(h, EventKind::Clicked, 2),
    ];
    same(&rt, &clicked, &[Some(delete), Some(Action::Say), None]);
    handlers.drop_kind(h, EventKind::Clicked);
    let left = [
        handlers.nth(h, EventKind::Clicked, 0),
        handlers.nth(h, EventKind::Pressed, 0),
    ];
    same(&rt, &left, &[None, Some(Action::Say)]);
    same(&rt, &handlers.spare(), &2);
    handlers.forget(h);
    same(&rt, &handlers.spare(), &3);
}
