//! Requests, and the data of writes, which are handed to the desk.
ghost use Rattle.std.specs.Prelude.{◌≡◌, ◌≢◌, ◌≤◌, ◌*◌, ◌++◌, [], None, Some, length, vec_capacity};
ghost use Rattle.aoe_desk.specs.Desks.{HasRoom};
ghost use Rattle.aoe_desk.specs.Runs.{Call, CanCall, after};
ghost use Rattle.aoe_nbd_serve.specs.Asking.{CanDo, CanHandIn, Did, IsBegunAt, IsKept, Takes, held_next, is_more, room_needed, room_after};
ghost use Rattle.aoe_nbd_serve.specs.Conversations.{IsCallOf};

use crate::input::Input;
use aoe_base::Blob;
use aoe_desk::Desk;
use aoe_nbd::{
    Action, Event, Export, Request, Transmission, read_head, request_reads_back,
    what_is_carried_out,
};
use std::alloc::Global;

/// The request that comes.
#[derive(Drop)]
pub(crate) struct Coming {
    alloc: Global,

    /// The data that came of a write.
    payload: Vec<u8>,

    /// How many bytes the request holds at the desk, where its head came and not all of its data.
    room: Option<u32>,
}

/// How many bytes the request holds at the desk whose head stands at the front.
fn held_next(export: &Export, bytes: &[u8]) -> u32
    ensures { result ≡ held_next export.now bytes.now }
{
    let Some(head) = read_head(bytes) else {
        return 0;
    };
    if export.refusal(&head).is_some() {
        return 0;
    }
    match head.request().action {
        Action::Read { .. } | Action::Write { .. } => head.len,
        Action::Flush => 0,
    }
}

/// Whether nothing was taken, and more is needed.
fn is_more(event: Event) -> bool
    ensures { result ≡ is_more event }
{
    match event {
        Event::More => true,
        Event::Begins(_)
        | Event::Data
        | Event::Skipped
        | Event::Came(_)
        | Event::Refused { .. }
        | Event::Disconnected
        | Event::BadMagic
        | Event::Ended => false,
    }
}

/// Whether more of the request comes.
fn room_after(event: Event, room: u32) -> Option<u32>
    ensures { result ≡ room_after event room }
{
    match event {
        Event::Begins(_) | Event::Data | Event::Skipped => Some(room),
        Event::More
        | Event::Came(_)
        | Event::Refused { .. }
        | Event::Disconnected
        | Event::BadMagic
        | Event::Ended => None,
    }
}

impl Coming {
    /// None yet.
    pub(crate) fn new(alloc: Global) -> Coming
        ensures kept_data { result.payload.items ≡ [] }
        ensures room { result.room ≡ None }
    {
        Coming {
            alloc,
            payload: Vec::new(alloc),
            room: None,
        }
    }

    /// How many bytes the request holds at the desk.
    fn room_needed(&self, export: &Export, bytes: &[u8]) -> u32
        ensures { result ≡ room_needed export.now self.now.room bytes.now }
    {
        // Its data has the room that there was for its head.
        match self.room {
            Some(room) => room,
            None => held_next(export, bytes),
        }
    }

    /// Keeps bytes as data of the write, for which there is room.
    fn keep(&mut self, bytes: &[u8])
        requires { length (self.old.payload.items ++ bytes.now) ≤ vec_capacity self.old.payload }
        ensures items { self.new.payload.items ≡ self.old.payload.items ++ bytes.now }
        ensures capacity { vec_capacity self.old.payload ≤ vec_capacity self.new.payload }
        ensures room { self.new.room ≡ self.old.room }
    {
        let _ = self.payload.extend_from_slice(bytes);
    }

    /// The data that was kept.
    fn take_data(&mut self) -> Blob
        ensures value { result ≡ self.old.payload.items }
        ensures none_left { self.new.payload.items ≡ [] }
        ensures room { self.new.room ≡ self.old.room }
    {
        Blob::from_vec(std::mem::replace(&mut self.payload, Vec::new(self.alloc)))
    }

    /// Hands a request to the desk, whose last bytes these are.
    fn hand_in(&mut self, desk: &mut Desk, request: Request, last: &[u8])
        requires { CanHandIn request.action self.old last.now desk.old }
        ensures call { (call : Call)
            × IsCallOf desk.old.max request (self.old.payload.items ++ last.now) call
            × CanCall call desk.old × (desk.new ≡ after call desk.old) }
        ensures kept_data { self.new.payload.items ≡ [] }
        ensures room { self.new.room ≡ self.old.room }
    {
        match request.action {
            Action::Read { span } => desk.read(request.handle, span),
            Action::Write { span, lasts } => {
                self.keep(last);
                let data = self.take_data();
                desk.write(request.handle, span.at, data, lasts);
            }
            Action::Flush => desk.flush(request.handle),
        }
    }

    /// Makes room for the data of a write, or gives it up.
    fn begin(&mut self, transmission: &mut Transmission, len: u32)
        requires { self.old.payload.items ≡ [] }
        ensures begun { IsBegunAt len transmission.old transmission.new self.new }
        ensures kept_data { self.new.payload.items ≡ [] }
        ensures room { self.new.room ≡ self.old.room }
    {
        if self.payload.reserve(len as usize).is_err() {
            transmission.give_up();
        }
    }

    /// Does what these bytes say, which were taken of a request that holds so many bytes.
    fn do_event(
        &mut self,
        transmission: &mut Transmission,
        desk: &mut Desk,
        event: Event,
        bytes: &[u8],
        room: u32,
    )
        requires { CanDo event self.old bytes.now desk.old }
        ensures did { Did event bytes.now room transmission.old transmission.new self.old self.new
            desk.old desk.new }
    {
        self.room = room_after(event, room);
        match event {
            Event::Begins(_) => self.begin(transmission, room),
            Event::Data => self.keep(bytes),
            Event::Came(request) => self.hand_in(desk, request, bytes),
            Event::Refused { error, handle } => desk.refuse(handle, error),
            Event::More | Event::Skipped | Event::Disconnected | Event::BadMagic | Event::Ended =>
                {}
        }
    }

    /// Takes a request, or a piece of the data of a write, if the desk has room for it: what it said.
    pub(crate) fn take(
        &mut self,
        transmission: &mut Transmission,
        export: &Export,
        input: &mut Input,
        desk: &mut Desk,
    ) -> Event
        requires kept { IsKept export.now transmission.old self.old }
        requires size { export.now.size ≤ 512 * desk.old.total }
        ensures takes { result ≢ Event.More → Takes export.now result transmission.old
            transmission.new input.old input.new self.old.payload.items self.new.payload.items desk.old
            desk.new }
        ensures kept { IsKept export.now transmission.new self.new }
        ensures more { result ≡ Event.More → (transmission.new ≡ transmission.old)
            × (input.new ≡ input.old) × (self.new.payload.items ≡ self.old.payload.items)
            × (desk.new ≡ desk.old) }
    {
        let front = input.bytes();
        let room = self.room_needed(export, front);
        if !desk.has_room(room) {
            return Event::More;
        }
        let taken = transmission.take(export, front);
        if is_more(taken.event) {
            return Event::More;
        }
        request_reads_back();
        what_is_carried_out();
        self.do_event(transmission, desk, taken.event, &front[..taken.len], room);
        input.drop_front(taken.len);
        taken.event
    }
}
