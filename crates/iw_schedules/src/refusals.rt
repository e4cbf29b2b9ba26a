//! The refusals of each call, and the faults that close a stream in its start-up, as traces print them.

ghost use Rattle.std.specs.Prelude.{◌≡◌};
ghost use Rattle.iw_schedules.specs.Answers.{domain_refusal, register_refusal, store_refusal, no_region};
ghost use Rattle.iw_schedules.specs.Answers.{open_refusal, answer_refusal, startup_fault};
ghost use Rattle.iw_schedules.specs.Answers.{share_refusal, pool_refusal, take_refusal, open_shared_refusal};
ghost use Rattle.iw_schedules.specs.Answers.{size_refusal, recv_refusal, post_refusal, first_refusal};
ghost use Rattle.iw_schedules.specs.Shown.{shown_refusal};

use iw_endpoint::{OpenSharedRefusal, PoolRefusal, ShareRefusal, TakeRefusal};
use iw_memory::{DomainRefusal, NoRegion, RegisterRefusal, StoreRefusal};
use iw_startup::StartupFault;
use iw_stream::{AnswerRefusal, FirstRefusal, OpenRefusal, PostRefusal, RecvRefusal, SizeRefusal};

/// The number and the name of a refusal, or of a start-up fault.
#[derive(Clone, Copy)]
pub(crate) struct Refusal {
    pub(crate) number: u8,
    pub(crate) name: &'static str,
}

impl Refusal {
    fn new(number: u8, name: &'static str) -> Refusal
        ensures { shown_refusal result ≡ (number, name.now) }
    {
        Refusal { number, name }
    }
}

pub(crate) fn of_domain(refusal: DomainRefusal) -> Refusal
    ensures { shown_refusal result ≡ domain_refusal refusal }
{
    match refusal {
        DomainRefusal::BadDomain => Refusal::new(1, "BadDomain"),
        DomainRefusal::DomainTaken => Refusal::new(2, "DomainTaken"),
        DomainRefusal::NoMemory => Refusal::new(3, "NoMemory"),
    }
}

pub(crate) fn of_register(refusal: RegisterRefusal) -> Refusal
    ensures { shown_refusal result ≡ register_refusal refusal }
{
    match refusal {
        RegisterRefusal::NoDomain => Refusal::new(1, "NoDomain"),
        RegisterRefusal::DomainFull => Refusal::new(2, "DomainFull"),
        RegisterRefusal::TooLong => Refusal::new(3, "TooLong"),
        RegisterRefusal::BaseWrap => Refusal::new(4, "BaseWrap"),
        RegisterRefusal::NoMemory => Refusal::new(5, "NoMemory"),
    }
}

/// The refusal of `deregister` and `invalidate`.
pub(crate) fn of_missing(_refusal: NoRegion) -> Refusal
    ensures { shown_refusal result ≡ no_region }
{
    Refusal::new(1, "NoRegion")
}

pub(crate) fn of_store(refusal: StoreRefusal) -> Refusal
    ensures { shown_refusal result ≡ store_refusal refusal }
{
    match refusal {
        StoreRefusal::NoRegion => Refusal::new(1, "NoRegion"),
        StoreRefusal::Outside => Refusal::new(2, "Outside"),
    }
}

pub(crate) fn of_open(refusal: OpenRefusal) -> Refusal
    ensures { shown_refusal result ≡ open_refusal refusal }
{
    match refusal {
        OpenRefusal::NumberTaken => Refusal::new(1, "NumberTaken"),
        OpenRefusal::BadNumber => Refusal::new(2, "BadNumber"),
        OpenRefusal::NoDomain => Refusal::new(3, "NoDomain"),
        OpenRefusal::NoMemory => Refusal::new(4, "NoMemory"),
        OpenRefusal::PrivateTooLong => Refusal::new(6, "PrivateTooLong"),
    }
}

pub(crate) fn of_share(refusal: ShareRefusal) -> Refusal
    ensures { shown_refusal result ≡ share_refusal refusal }
{
    match refusal {
        ShareRefusal::NoDomain => Refusal::new(1, "NoDomain"),
        ShareRefusal::AlreadyShared => Refusal::new(2, "AlreadyShared"),
        ShareRefusal::NoMemory => Refusal::new(3, "NoMemory"),
    }
}

pub(crate) fn of_pool(refusal: PoolRefusal) -> Refusal
    ensures { shown_refusal result ≡ pool_refusal refusal }
{
    match refusal {
        PoolRefusal::NoDomain => Refusal::new(1, "NoDomain"),
        PoolRefusal::NotShared => Refusal::new(2, "NotShared"),
        PoolRefusal::Full => Refusal::new(3, "Full"),
        PoolRefusal::NoMemory => Refusal::new(4, "NoMemory"),
    }
}

pub(crate) fn of_take(refusal: TakeRefusal) -> Refusal
    ensures { shown_refusal result ≡ take_refusal refusal }
{
    match refusal {
        TakeRefusal::NoDomain => Refusal::new(1, "NoDomain"),
        TakeRefusal::NotShared => Refusal::new(2, "NotShared"),
    }
}

pub(crate) fn of_open_shared(refusal: OpenSharedRefusal) -> Refusal
    ensures { shown_refusal result ≡ open_shared_refusal refusal }
{
    match refusal {
        OpenSharedRefusal::NumberTaken => Refusal::new(1, "NumberTaken"),
        OpenSharedRefusal::BadNumber => Refusal::new(2, "BadNumber"),
        OpenSharedRefusal::NoDomain => Refusal::new(3, "NoDomain"),
        OpenSharedRefusal::NotShared => Refusal::new(4, "NotShared"),
        OpenSharedRefusal::NoMemory => Refusal::new(5, "NoMemory"),
        OpenSharedRefusal::PrivateTooLong => Refusal::new(6, "PrivateTooLong"),
    }
}

pub(crate) fn of_recv(refusal: RecvRefusal) -> Refusal
    ensures { shown_refusal result ≡ recv_refusal refusal }
{
    match refusal {
        RecvRefusal::Full => Refusal::new(1, "Full"),
        RecvRefusal::NoMemory => Refusal::new(2, "NoMemory"),
        RecvRefusal::Ended => Refusal::new(3, "Ended"),
        RecvRefusal::Shared => Refusal::new(4, "Shared"),
    }
}

pub(crate) fn of_post(refusal: PostRefusal) -> Refusal
    ensures { shown_refusal result ≡ post_refusal refusal }
{
    match refusal {
        PostRefusal::Full => Refusal::new(1, "Full"),
        PostRefusal::TooLong => Refusal::new(2, "TooLong"),
        PostRefusal::NotOpen => Refusal::new(3, "NotOpen"),
        PostRefusal::NoMemory => Refusal::new(4, "NoMemory"),
        PostRefusal::NoReads => Refusal::new(5, "NoReads"),
    }
}

pub(crate) fn of_size(refusal: SizeRefusal) -> Refusal
    ensures { shown_refusal result ≡ size_refusal refusal }
{
    match refusal {
        SizeRefusal::BadSize => Refusal::new(1, "BadSize"),
    }
}

pub(crate) fn of_first(refusal: FirstRefusal) -> Refusal
    ensures { shown_refusal result ≡ first_refusal refusal }
{
    match refusal {
        FirstRefusal::Late => Refusal::new(1, "Late"),
    }
}

/// The refusal of `accept` and `reject`.
pub(crate) fn of_answer(refusal: AnswerRefusal) -> Refusal
    ensures { shown_refusal result ≡ answer_refusal refusal }
{
    match refusal {
        AnswerRefusal::NotAsked => Refusal::new(1, "NotAsked"),
        AnswerRefusal::PrivateTooLong => Refusal::new(2, "PrivateTooLong"),
    }
}

/// Why a stream was closed before it was open.
pub(crate) fn of_startup(fault: StartupFault) -> Refusal
    ensures { shown_refusal result ≡ startup_fault fault }
{
    match fault {
        StartupFault::BadKey => Refusal::new(1, "BadKey"),
        StartupFault::BadRev => Refusal::new(2, "BadRev"),
        StartupFault::BadLength => Refusal::new(3, "BadLength"),
        StartupFault::Rejected => Refusal::new(4, "Rejected"),
    }
}
