//! The target of a request.

ghost use Rattle.std.specs.Prelude.{◌≡◌, ◌≢◌, ◌<◌, ◌≤◌, ◌⊎◌, ◌↔◌, ℕ, true, false, not, List, [], ◌∷◌, length, codes, bytes_eq, IfOk, IfErr, OnOk, IfSome, IfNone, IsTrue};
ghost use Rattle.std.specs.List.{list_all, prefix_len};
ghost use Rattle.std.specs.Ordering.{nat_cmp, ordering_then};
ghost use Rattle.std.specs.Cmp.Lexicographic.{slice_cmp};
ghost use Rattle.http_uri.specs.Grammar.{IsAuthority, IsPathInput};
ghost use Rattle.httparse.specs.Grammar.{is_token};
ghost use Rattle.hc_fields.specs.declared.fields.Field.{Field};
ghost use Rattle.hc_fields.specs.Values.{has_name};
ghost use Rattle.hc_head.specs.declared.head.RequestHead.{RequestHead};
ghost use Rattle.hc_head.specs.declared.head.Target.{Target};
ghost use Rattle.hc_head.specs.declared.head.Version.{Version};
ghost use Rattle.hc_head.specs.declared.fault.HeadFault.TheVariants.{Memory};
ghost use Rattle.hc_head.specs.HostScan.{authority_of};
ghost use Rattle.hc_head.specs.Hosts.{Authority, HasAuthority};
ghost use Rattle.hc_head.specs.Plain.{is_plain_value, is_plain_field, IsPlainTarget, IsPlainRequest};
ghost use Rattle.hc_head.specs.Targets.{Asterisk, FindsTarget, FollowsScheme, GivesTarget, HasForm, HasHost, HasTarget, IsAbsoluteForm, IsOriginForm, MayName, absolute_path, host_field, is_path_start, read_as, same_target};

use crate::fault::HeadFault;
use crate::head::{RequestHead, Target};
use crate::hosts::{HostAndPort, host_and_port, put_host};
use crate::methods::{is_connect, is_options};
use crate::views::RequestHeadView;
use hc_fields::Octets;
use http_uri::{PathAndQuery, UriError};
use std::alloc::{AllocError, Global};

/// The most octets of a target.
const LONGEST_TARGET: usize = 65_534;

/// What begins the absolute form, in any case.
const SCHEME: &[u8] = b"http://";

/// A target in absolute form.
#[derive(Clone, Copy)]
struct AbsoluteForm<'a> {
    authority: HostAndPort<'a>,
    /// What follows the authority.
    rest: &'a [u8],
}

/// The one Host line.
fn host_line<'a>(head: &RequestHeadView<'a>) -> Option<HostAndPort<'a>>
    ensures found { IfSome result (λ host. HasHost head.now (authority_of host)) }
    ensures none { IfNone result ((host : Authority) → ¬ (HasHost head.now host)) }
{
    let mut values = head.fields.values(b"host");
    let line = values.next()?;
    if values.next().is_some() {
        return None;
    }
    host_and_port(line)
}

fn is_path(alloc: Global, text: &[u8]) -> Result<bool, HeadFault>
    ensures answer { IfOk result (λ is. IsTrue is ↔ IsPathInput text.now) }
    ensures memory { IfErr result (λ fault. fault ≡ Memory) }
{
    match PathAndQuery::from_bytes(alloc, text) {
        Ok(_) => Ok(true),
        Err(UriError::OutOfMemory) => Err(HeadFault::Memory),
        Err(UriError::Invalid(_)) => Ok(false),
    }
}

fn is_path_or_nothing(alloc: Global, rest: &[u8]) -> Result<bool, HeadFault>
    ensures answer { IfOk result (λ is. IsTrue is ↔ ((rest.now ≡ []) ⊎ IsPathInput rest.now)) }
    ensures memory { IfErr result (λ fault. fault ≡ Memory) }
{
    if rest.is_empty() {
        Ok(true)
    } else {
        is_path(alloc, rest)
    }
}

fn is_authority(alloc: Global, text: &[u8]) -> Result<bool, HeadFault>
    ensures answer { IfOk result (λ is. IsTrue is ↔ IsAuthority text.now) }
    ensures memory { IfErr result (λ fault. fault ≡ Memory) }
{
    match http_uri::Authority::from_bytes(alloc, text) {
        Ok(_) => Ok(true),
        Err(UriError::OutOfMemory) => Err(HeadFault::Memory),
        Err(UriError::Invalid(_)) => Ok(false),
    }
}

fn is_origin_form(alloc: Global, text: &[u8]) -> Result<bool, HeadFault>
    ensures answer { IfOk result (λ is. IsTrue is ↔ IsOriginForm text.now) }
    ensures memory { IfErr result (λ fault. fault ≡ Memory) }
{
    if text.first() == Some(&b'/') {
        is_path(alloc, text)
    } else {
        Ok(false)
    }
}

fn is_asterisk_form(head: &RequestHeadView<'_>) -> bool
    ensures { IsTrue result ↔ HasForm head.now Asterisk }
{
    head.target == b"*".as_slice() && is_options(head.method)
}

/// What follows the scheme.
fn behind_scheme(text: &[u8]) -> Option<&[u8]>
    ensures found { IfSome result (λ behind. FollowsScheme text.now behind.now) }
    ensures none { IfNone result ((behind : List ℕ) → ¬ (FollowsScheme text.now behind)) }
{
    let (scheme, behind) = text.split_at_checked(SCHEME.len())?;
    if scheme.eq_ignore_ascii_case(SCHEME) {
        Some(behind)
    } else {
        None
    }
}

fn is_path_start(octet: u8) -> bool
    ensures { result ≡ is_path_start octet }
{
    octet == b'/' || octet == b'?'
}

/// How many octets stand before the path and the query.
fn authority_len(text: &[u8]) -> usize
    ensures value { result ≡ prefix_len (λ b. not (is_path_start b)) text.now }
    ensures within { result ≤ length text.now }
{
    text.iter()
        .take_while(|octet| !is_path_start(**octet))
        .count()
}

fn absolute_form(alloc: Global, text: &[u8]) -> Result<Option<AbsoluteForm<'_>>, HeadFault>
    ensures found { IfOk result (λ form. IfSome form
        (λ f. IsAbsoluteForm text.now (authority_of f.authority) f.rest.now)) }
    ensures none { IfOk result (λ form. IfNone form
        ((authority : Authority) (rest : List ℕ) → ¬ (IsAbsoluteForm text.now authority rest))) }
    ensures memory { IfErr result (λ fault. fault ≡ Memory) }
{
    let Some(behind) = behind_scheme(text) else {
        return Ok(None);
    };
    let (name, rest) = behind.split_at(authority_len(behind));
    let Some(authority) = host_and_port(name) else {
        return Ok(None);
    };
    if !is_authority(alloc, name)? || !is_path_or_nothing(alloc, rest)? {
        return Ok(None);
    }
    Ok(Some(AbsoluteForm { authority, rest }))
}

/// Puts the path of an absolute form in the place of other octets.
fn put_path(path: &mut Octets, method: &[u8], rest: &[u8]) -> Result<(), AllocError>
    ensures { OnOk result (path.new ≡ absolute_path method.now rest.now) }
{
    path.clear();
    match rest.first() {
        None if is_options(method) => path.extend_from_slice(b"*")?,
        None => path.extend_from_slice(b"/")?,
        Some(b'?') => {
            path.extend_from_slice(b"/")?;
            path.extend_from_slice(rest)?;
        }
        Some(_) => path.extend_from_slice(rest)?,
    }
    Ok(())
}

fn may_name(head: &RequestHeadView<'_>) -> bool
    ensures { IsTrue result ↔ MayName head.now }
{
    !is_connect(head.method) && !head.target.contains(&b'#') && head.target.len() <= LONGEST_TARGET
}

fn read_into(
    alloc: Global,
    head: &RequestHeadView<'_>,
    target: &mut Target,
) -> Result<(), HeadFault>
    ensures { GivesTarget (read_as result target.new) head.now }
{
    let Some(host) = host_line(head) else {
        return Err(HeadFault::Host);
    };
    if !may_name(head) {
        return Err(HeadFault::Target);
    }
    if is_asterisk_form(head) || is_origin_form(alloc, head.target)? {
        put_host(&mut target.host, host)?;
        target.path.clear();
        target.path.extend_from_slice(head.target)?;
        return Ok(());
    }
    let Some(form) = absolute_form(alloc, head.target)? else {
        return Err(HeadFault::Target);
    };
    put_host(&mut target.host, form.authority)?;
    put_path(&mut target.path, head.method, form.rest)?;
    Ok(())
}

/// Reads the target of a request that is lent, in the memory of another target. A wrong Host line is told
/// before a wrong target. After an error nothing is said of what stands there.
pub fn read_target(
    alloc: Global,
    head: &RequestHeadView<'_>,
    target: &mut Target,
) -> Result<(), HeadFault>
    // Each result stands only where it says so.
    ensures gives { GivesTarget (read_as result target.new) head.now }
    // A target that is there is found, unless memory runs out.
    ensures found { (there : Target) → HasTarget head.now there → FindsTarget (read_as result target.new) there }
{
    read_into(alloc, head, target)
}

/// The target of a request. A wrong Host line is told before a wrong target.
pub fn target(alloc: Global, head: &RequestHead) -> Result<Target, HeadFault>
    // Each result stands only where it says so.
    ensures gives { GivesTarget result head.now }
    // A target that is there is found, unless memory runs out.
    ensures found { (target : Target) → HasTarget head.now target → FindsTarget result target }
{
    let mut target = Target {
        host: Octets::new(alloc),
        path: Octets::new(alloc),
    };
    match read_target(alloc, &head.lent(), &mut target) {
        Ok(()) => Ok(target),
        Err(fault) => Err(fault),
    }
}

/// Whether both are the same host and the same path.
pub fn same_target(one: &Target, other: &Target) -> bool
    ensures { result ≡ same_target one.now other.now }
{
    one == other
}

/// A request has one target at most.
pub fn one_target()
    ensures target { (head : RequestHead) (one other : Target)
        → HasTarget head one → HasTarget head other → one ≡ other }
    // A text is a host and a port in one way.
    ensures authority { (text : List ℕ) (one other : Authority)
        → HasAuthority text one → HasAuthority text other → one ≡ other }
{}

/// The host of a target is a plain value of at most 261 octets, and the path, which is no longer than the
/// target that was read, is as plain as that.
pub fn target_parts_are_plain()
    ensures host { (head : RequestHead) (target : Target) → HasTarget head target
        → (is_plain_value target.host ≡ true) × (0 < length target.host) × (length target.host ≤ 261) }
    ensures path { (head : RequestHead) (target : Target) → HasTarget head target → IsPlainTarget head.target
        → IsPlainTarget target.path }
    ensures short_path { (head : RequestHead) (target : Target) → HasTarget head target
        → length target.path ≤ length head.target }
    // The path is `*` for OPTIONS alone.
    ensures asterisk { (head : RequestHead) (target : Target) → HasTarget head target → target.path ≡ codes "*"
        → head.method ≡ codes "OPTIONS" }
{}

/// A request that asks for the path of a target, and whose Host line is the target's host, has that
/// target.
pub fn forwarded_target_is_the_same()
    ensures same_method { (head : RequestHead) (target : Target) (version : Version) (rest : List Field)
        → HasTarget head target → has_name (codes "host") rest ≡ false
        → HasTarget (record {
          method = head.method;
          target = target.path;
          version = version;
          fields = host_field target.host ∷ rest;
        }) target }
    // So it does by another method, but not where the path is `*`.
    ensures other_method { (head : RequestHead) (target : Target) (method : List ℕ) (version : Version) (rest : List Field)
        → HasTarget head target → target.path ≢ codes "*" → bytes_eq method (codes "CONNECT") ≡ false
        → has_name (codes "host") rest ≡ false
        → HasTarget (record {
          method = method;
          target = target.path;
          version = version;
          fields = host_field target.host ∷ rest;
        }) target }
    // It is plain where the method, the target that was read and the other lines are.
    ensures plain { (head : RequestHead) (target : Target) (method : List ℕ) (version : Version) (rest : List Field)
        → HasTarget head target → IsPlainTarget head.target → is_token method ≡ true
        → list_all is_plain_field rest ≡ true
        → IsPlainRequest (record {
          method = method;
          target = target.path;
          version = version;
          fields = host_field target.host ∷ rest;
        }) }
{}

/// Targets are equal where they are the same host and the same path, and their order goes by the
/// host and then by the path, octet by octet.
pub fn targets_compare_by_host_and_path()
    ensures equal { (one other : Target) → ⟦<Target as PartialEq>⟧.eq one other ≡ same_target one other }
    ensures same { (one other : Target) → same_target one other ≡ true ↔ one ≡ other }
    ensures order { (one other : Target) → ⟦<Target as Ord>⟧.cmp one other
        ≡ ordering_then (slice_cmp nat_cmp one.host other.host) (slice_cmp nat_cmp one.path other.path) }
{}
