//! The stages of calls.

/// A stage of a call. Each argument is the whole word that stands in its register.
#[derive(Clone, Copy)]
pub enum Stage {
    Create {
        s: u64,
        x: u64,
        kind: u64,
    },
    Destroy {
        s: u64,
        x: u64,
    },
    Rename {
        s: u64,
        x: u64,
        y: u64,
    },
    Search {
        s: u64,
        from: u64,
    },
    Point {
        s: u64,
        x: u64,
        s2: u64,
        x2: u64,
    },
    Clear {
        s: u64,
        x: u64,
    },
    Locate {
        reference: u64,
        s: u64,
    },
    CountIn {
        base: u64,
        s: u64,
        x: u64,
    },
    GetState {
        s: u64,
        x: u64,
        addr: u64,
    },
    SetState {
        s: u64,
        x: u64,
        addr: u64,
    },
    GetPtr {
        s: u64,
        x: u64,
        field: u64,
        reference: u64,
    },
    SetPtr {
        s: u64,
        x: u64,
        field: u64,
        reference: u64,
    },
    SpaceHold {
        s: u64,
        x: u64,
    },
    SpaceRelease {
        s: u64,
        x: u64,
    },
    ThreadStop {
        h: u64,
    },
    ThreadGo {
        h: u64,
    },
    PageGive {
        s: u64,
        page: u64,
        addr: u64,
    },
    PageTake {
        s: u64,
        page: u64,
        addr: u64,
    },
    PageRead {
        s: u64,
        page: u64,
        addr: u64,
    },
    PageNext {
        s: u64,
        from: u64,
    },
    MutexLock {
        m: u64,
    },
    MutexTrylock {
        m: u64,
    },
    MutexUnlock {
        m: u64,
    },
    CondWait {
        c: u64,
        m: u64,
    },
    CondAsleep {
        c: u64,
        m: u64,
    },
    CondSignal {
        c: u64,
    },
    CondBroadcast {
        c: u64,
    },
    Connect {
        h: u64,
    },
    ClientReceive {
        addr: u64,
        room: u64,
    },
    ClientSend {
        addr: u64,
        count: u64,
    },
    ClientOver,
    Disconnect,
    ClientOverRef {
        reference: u64,
    },
    ClientReceiveRef {
        addr: u64,
        room: u64,
        reference: u64,
    },
    Wait {
        set: u64,
    },
    ServerReceive {
        addr: u64,
        room: u64,
    },
    ServerSend {
        addr: u64,
        count: u64,
    },
    ServerOver,
    ServerEnd,
    FaultDone,
    ServerOverRef {
        reference: u64,
    },
    ServerReceiveRef {
        addr: u64,
        room: u64,
        reference: u64,
    },
    LinkSet {
        s: u64,
        x: u64,
        port: u64,
        server: u64,
    },
    LinkPark {
        s: u64,
        x: u64,
        port: u64,
    },
    FaultSet {
        s: u64,
        x: u64,
        port: u64,
        taker: u64,
    },
    FaultPark {
        s: u64,
        x: u64,
        port: u64,
        taken: u64,
    },
    HoldSet {
        s: u64,
        x: u64,
        thread: u64,
    },
    SpaceMakeHeld {
        x: u64,
    },
}

/// The stages that a calling thread has before it, the next one first: at most four.
#[derive(Clone, Copy)]
pub enum Todo {
    One(Stage),
    Two(Stage, Stage),
    Three(Stage, Stage, Stage),
    Four(Stage, Stage, Stage, Stage),
}
