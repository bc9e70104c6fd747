//! An object of a file, as `struct ib_uobject` of the kernel.

ghost use Rattle.std.specs.Prelude.{◌≡◌, map};
ghost use Rattle.uv_machine.specs.Requests.{service_in, length_in, access_in};
ghost use Rattle.uv_machine.specs.Objects.{is_kind, is_made, is_live, is_doomed, is_husk, live_from, doomed_from, bound_uses, with_change, on_object, has_handle, is_published_at, uses_object, is_doomed_in, is_standing_in, object_service, region_length, region_access, domain_of};

use uv_num::{Ids, Kind, NONE, Request};

/// How far an object's life is.
#[derive(Clone, Copy, Debug, PartialEq)]
pub enum Phase {
    /// Its create has not committed it: no look finds it.
    Made,
    /// It is published.
    Live,
    /// A destroy or a teardown has taken it out of use and will release it.
    Doomed,
    /// A teardown has released it; its handle stays until a destroy or the file's end takes it away.
    Husk,
}

/// The range of a region that a window is bound to.
#[derive(Clone, Copy, Debug, PartialEq)]
pub struct Binding {
    /// The region's id.
    pub region: u32,
    /// Where the range begins, in bytes from the region's begin.
    pub offset: u64,
    /// The range's length in bytes.
    pub length: u64,
    /// The window's rights.
    pub access: u64,
}

/// An object.
#[derive(Clone, Copy, Debug, PartialEq)]
pub struct Object {
    /// Its place in the order of making, from 0; never used again.
    pub id: u32,
    pub kind: Kind,
    pub file: u32,
    /// Its number in its file's handle table.
    pub handle: u32,
    /// The request that made it.
    pub request: Request,
    /// The objects that it uses, in the order of its arguments; one may stand twice.
    pub uses: Ids,
    /// What a window is bound to. Its region is then among the objects that it uses.
    pub binding: Option<Binding>,
    /// Its cell among those of its kind.
    pub index: u32,
    /// The generation of that cell.
    pub generation: u32,
    pub phase: Phase,
}

/// What can happen to an object that stays.
#[derive(Clone, Copy, Debug, PartialEq)]
pub enum Change {
    /// Its create commits it.
    ToLive,
    /// A destroy or a teardown takes it out of use; a husk stays one.
    ToDoomed,
    /// A teardown has released it: it uses nothing any more.
    ToHusk,
    /// A window is bound to another range, or to none.
    ToBound(Option<Binding>),
}

impl Phase {
    /// Whether no look finds the object yet.
    pub fn is_made(self) -> bool
        ensures { result ≡ is_made self }
    {
        match self {
            Phase::Made => true,
            Phase::Live | Phase::Doomed | Phase::Husk => false,
        }
    }

    /// Whether the object is in use.
    pub fn is_live(self) -> bool
        ensures { result ≡ is_live self }
    {
        match self {
            Phase::Live => true,
            Phase::Made | Phase::Doomed | Phase::Husk => false,
        }
    }

    /// Whether the object is about to be released.
    pub fn is_doomed(self) -> bool
        ensures { result ≡ is_doomed self }
    {
        match self {
            Phase::Doomed => true,
            Phase::Made | Phase::Live | Phase::Husk => false,
        }
    }

    /// Whether a teardown has released the object.
    pub fn is_husk(self) -> bool
        ensures { result ≡ is_husk self }
    {
        match self {
            Phase::Husk => true,
            Phase::Made | Phase::Live | Phase::Doomed => false,
        }
    }

    fn live(self) -> Phase
        ensures { result ≡ live_from self }
    {
        match self {
            Phase::Made | Phase::Live => Phase::Live,
            Phase::Doomed => Phase::Doomed,
            Phase::Husk => Phase::Husk,
        }
    }

    fn doomed(self) -> Phase
        ensures { result ≡ doomed_from self }
    {
        match self {
            Phase::Made => Phase::Made,
            Phase::Live | Phase::Doomed => Phase::Doomed,
            Phase::Husk => Phase::Husk,
        }
    }
}

impl Object {
    /// Whether the number is the object's, in this file's handle table.
    pub fn has_handle(&self, file: u32, number: u32) -> bool
        ensures { result ≡ has_handle file number self.now }
    {
        self.file == file && self.handle == number
    }

    /// Whether a look on this file finds the object under this number.
    pub fn is_published_at(&self, file: u32, number: u32) -> bool
        ensures { result ≡ is_published_at file number self.now }
    {
        self.has_handle(file, number) && !self.phase.is_made()
    }

    /// Whether the object uses that one.
    pub fn uses_object(&self, id: u32) -> bool
        ensures { result ≡ uses_object id self.now }
    {
        self.uses.contains(id)
    }

    /// Whether the object is of this file and doomed.
    pub fn is_doomed_in(&self, file: u32) -> bool
        ensures { result ≡ is_doomed_in file self.now }
    {
        self.file == file && self.phase.is_doomed()
    }

    /// Whether the object is of this file and has not been released.
    pub fn is_standing_in(&self, file: u32) -> bool
        ensures { result ≡ is_standing_in file self.now }
    {
        self.file == file && !self.phase.is_husk()
    }

    /// The service number of a queue pair.
    pub fn service(&self) -> u64
        ensures { result ≡ object_service self.now }
    {
        service_in(self.request)
    }

    /// The bytes of a region.
    pub fn length(&self) -> u64
        ensures { result ≡ region_length self.now }
    {
        length_in(self.request)
    }

    /// The rights of a region.
    pub fn access(&self) -> u64
        ensures { result ≡ region_access self.now }
    {
        access_in(self.request)
    }

    /// The domain: what the object uses first, or `NONE`.
    pub fn domain(&self) -> u32
        ensures { result ≡ domain_of self.now }
    {
        self.uses.get(0).unwrap_or(NONE)
    }

    fn bind(&mut self, binding: Option<Binding>)
        ensures { self.new ≡ with_change (Change.ToBound binding) self.old }
    {
        self.uses = bound_uses(binding, self.uses);
        self.binding = binding;
    }

    fn release(&mut self)
        ensures { self.new ≡ with_change Change.ToHusk self.old }
    {
        self.phase = Phase::Husk;
        self.uses = Ids::Empty;
        self.binding = None;
    }

    fn change(&mut self, change: Change)
        ensures { self.new ≡ with_change change self.old }
    {
        match change {
            Change::ToLive => self.phase = self.phase.live(),
            Change::ToDoomed => self.phase = self.phase.doomed(),
            Change::ToHusk => self.release(),
            Change::ToBound(binding) => self.bind(binding),
        }
    }

    fn change_if(&mut self, id: u32, change: Change)
        ensures { self.new ≡ on_object id change self.old }
    {
        if self.id == id {
            self.change(change);
        }
    }
}

fn bound_uses(binding: Option<Binding>, uses: Ids) -> Ids
    ensures { result ≡ bound_uses binding uses }
{
    match binding {
        None => uses.first_alone(),
        Some(binding) => uses.first_alone().and(binding.region),
    }
}

/// Changes the object with an id.
pub fn change_object(objects: &mut [Object], id: u32, change: Change)
    ensures { objects.new ≡ map (on_object id change) objects.old }
{
    for x in objects.iter_mut() {
        x.change_if(id, change);
    }
}

/// Whether two kinds are one.
pub fn is_kind(a: Kind, b: Kind) -> bool
    ensures { result ≡ is_kind a b }
{
    a.place() == b.place()
}

/// The service number of the queue pair that a request makes.
fn service_in(request: Request) -> u64
    ensures { result ≡ service_in request }
{
    match request {
        Request::CreateQp { service, .. } => service,
        Request::AllocPd
        | Request::DeallocPd { .. }
        | Request::CreateChannel
        | Request::DestroyChannel { .. }
        | Request::CreateCq { .. }
        | Request::DestroyCq { .. }
        | Request::DestroyQp { .. }
        | Request::ModifyQp { .. }
        | Request::QueryQp { .. }
        | Request::CreateSrq { .. }
        | Request::DestroySrq { .. }
        | Request::CreateAh { .. }
        | Request::DestroyAh { .. }
        | Request::RegMr { .. }
        | Request::DeregMr { .. }
        | Request::AllocMw { .. }
        | Request::DeallocMw { .. }
        | Request::BindMw { .. }
        | Request::GetAsync => 0,
    }
}

/// The length of the region that a request makes.
fn length_in(request: Request) -> u64
    ensures { result ≡ length_in request }
{
    match request {
        Request::RegMr { length, .. } => length,
        Request::AllocPd
        | Request::DeallocPd { .. }
        | Request::CreateChannel
        | Request::DestroyChannel { .. }
        | Request::CreateCq { .. }
        | Request::DestroyCq { .. }
        | Request::CreateQp { .. }
        | Request::DestroyQp { .. }
        | Request::ModifyQp { .. }
        | Request::QueryQp { .. }
        | Request::CreateSrq { .. }
        | Request::DestroySrq { .. }
        | Request::CreateAh { .. }
        | Request::DestroyAh { .. }
        | Request::DeregMr { .. }
        | Request::AllocMw { .. }
        | Request::DeallocMw { .. }
        | Request::BindMw { .. }
        | Request::GetAsync => 0,
    }
}

/// The rights of the region that a request makes.
fn access_in(request: Request) -> u64
    ensures { result ≡ access_in request }
{
    match request {
        Request::RegMr { access, .. } => access,
        Request::AllocPd
        | Request::DeallocPd { .. }
        | Request::CreateChannel
        | Request::DestroyChannel { .. }
        | Request::CreateCq { .. }
        | Request::DestroyCq { .. }
        | Request::CreateQp { .. }
        | Request::DestroyQp { .. }
        | Request::ModifyQp { .. }
        | Request::QueryQp { .. }
        | Request::CreateSrq { .. }
        | Request::DestroySrq { .. }
        | Request::CreateAh { .. }
        | Request::DestroyAh { .. }
        | Request::DeregMr { .. }
        | Request::AllocMw { .. }
        | Request::DeallocMw { .. }
        | Request::BindMw { .. }
        | Request::GetAsync => 0,
    }
}
