//! What holds of all calls: domains apart, limited regions apart, numbers used once, shares, and coming to rest.
ghost use Rattle.iw_endpoint.specs.Isolation.{CallsConcernOneDomain, DomainsAreAlone};
ghost use Rattle.iw_endpoint.specs.Limited.{LimitedRegionsAreApart, LimitedRegionsStayApart, LimitedRegionsAreHidden, StreamsKnowTheirNumbers};
ghost use Rattle.iw_endpoint.specs.Copied.{RefusesCopiedOctets};
ghost use Rattle.iw_endpoint.specs.Registrations.{RegistrationsAreCalls};
ghost use Rattle.iw_endpoint.specs.Used.{NumbersAreUsedOnce};
ghost use Rattle.iw_endpoint.specs.Emptying.{EmitComesToRest, KnownFrames, RefusesSentAgain};
ghost use Rattle.iw_endpoint.specs.Shares.{StepsKeepShares, SharesSuffice};
ghost use Rattle.iw_endpoint.specs.Settling.{WorkLeavesLess, KnownCalls, RefusesToldAgain};

/// What a call answers, and how it changes the domain that it concerns, depend only on that domain's part of the
/// endpoint. The parts of all other domains stay as they are.
///
/// The number that `open_next` or `open_shared_next` gives, if one is left, is an argument of such a call here. It alone
/// depends on other domains: the calls' own clauses say that it is the next.
pub fn calls_concern_one_domain()
    ensures { CallsConcernOneDomain }
{}

/// After any list of calls to a new endpoint, each domain has got the answers, and is left in the state, that it would
/// have if there were no other domain. It holds if no two domains ask for, or are given, the same stream number.
pub fn domains_are_alone()
    ensures { DomainsAreAlone }
{}

/// A registration ([`Endpoint::register_as`](crate::Endpoint::register_as)) is the call that its fields choose, of those that
/// the other laws are over: it leaves the same.
pub fn registrations_are_calls()
    ensures { RegistrationsAreCalls }
{}

/// In any list of calls to a new endpoint, a number whose stream was closed never has a stream again, if each call of
/// `open_next` or `open_shared_next` has the number that the endpoint gives.
pub fn numbers_are_used_once()
    ensures { NumbersAreUsedOnce }
{}

/// A call on a stream leaves each region that is limited to another stream as it was. Neither what the call answers nor the
/// octets that it emits depend on that region's octets, and nothing else that it leaves does. It holds if each stream has the
/// number that it was opened under, as it does at each endpoint ([`streams_know_their_numbers`]).
pub fn limited_regions_are_apart()
    ensures { LimitedRegionsAreApart }
{}

/// The same of any list of calls, none of which is at the stream that the region is limited to, nor one by which the owner
/// reads, writes, invalidates or takes out the region: it stays as it was, and neither the answers nor what else the
/// calls leave depend on its octets.
pub fn limited_regions_stay_apart()
    ensures { LimitedRegionsStayApart }
{}

/// Over any list of calls, those at its own stream and its owner's among them, the octets of a region that is limited to one
/// stream are shown only by what `emit` appends at that stream, and by `local`, `local_mut`, `deregister`, `deregister_kept` and
/// `take_region` of its STag. All other answers, and all else that the calls leave, are the same whatever octets it had.
pub fn limited_regions_are_hidden()
    ensures { LimitedRegionsAreHidden }
{}

/// A step that copies a region limited to another stream to where its own peer may read it breaks the law, though it leaves
/// that region as it was and tells nothing of it.
pub fn refuses_copied_octets()
    ensures { RefusesCopiedOctets }
{}

/// After any list of calls to a new endpoint, each stream has the number that it was opened under.
pub fn streams_know_their_numbers()
    ensures { StreamsKnowTheirNumbers }
{}

/// Each call to `emit` that has something to emit leaves fewer frames to go out. If nothing else is done at a stream, `emit`
/// comes to rest, after no more frames than what was posted and what the peer asks for have octets, and some.
pub fn emit_comes_to_rest()
    ensures { EmitComesToRest }
{}

/// Frames that are left, counted by hand, before and after a Send of two octets goes out.
pub fn known_frames()
    ensures { KnownFrames }
{}

/// A step that emits a Send's frame and keeps the Send breaks the law.
pub fn refuses_sent_again()
    ensures { RefusesSentAgain }
{}

/// Each call to `work` that is not idle, and by which the stream does not end, leaves fewer calls to be done. If nothing else
/// is done at a stream, `work` comes to rest, or the stream ends, after at most 1,074,270,466 calls.
pub fn work_comes_to_rest()
    ensures { WorkLeavesLess }
{}

/// Calls that are left, counted by hand, before and after the message that was sent is handed out.
pub fn known_calls()
    ensures { KnownCalls }
{}

/// A step that tells a message and keeps it breaks the law.
pub fn refuses_told_again()
    ensures { RefusesToldAgain }
{}

/// A step within a share ([`Endpoint::work_within`](crate::Endpoint::work_within)) is that of `work` if the stream has less
/// bound, and else that of an endpoint whose pool is empty, with all pools as they were. In a domain that has a pool it leaves the
/// stream within its share. Each other stream has as many buffers bound as it had.
pub fn steps_keep_shares()
    ensures { StepsKeepShares }
{}

/// If the buffers of a pool, with those that are bound to streams of its domain, are enough for the shares of all these
/// streams, and each keeps to its own, then a stream that has less than its share finds a buffer for each message in range.
pub fn shares_suffice()
    ensures { SharesSuffice }
{}
