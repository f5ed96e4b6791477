//! Parsing of single lines of a certificate.

ghost use Rattle.std.specs.Prelude.{◌++◌, IfOk, MatchOption, codes};
ghost use Rattle.cert_format.specs.CertificateReading.{BeginsAt, IsPairLine, IsNoPairLine};
ghost use Rattle.cert_format.specs.CertificateReading.{IsPathText};
ghost use Rattle.cert_format.specs.CertificateReading.{IsNoPathText, IsStepsText, IsNoStepsText};
ghost use Rattle.cert_format.specs.CertificateReading.{IsStep};
ghost use Rattle.cert_format.specs.CertificateReading.{IsNoStep, IsVerdict, IsNoVerdict, IsHead};
ghost use Rattle.cert_format.specs.CertificateReading.{IsNoHead};

use crate::certificate_number::number_of;
use crate::cuts::{after, until};
use crate::section::{CertificatePairs, Section};
use base_data::model::Memory;
use base_data::model::path::Path;
use std::alloc::Global;

/// Parses the line of a pair. Returns `None` if the line has another form.
pub fn pair_of(line: &[u8]) -> Option<(u64, u64)>
    ensures { MatchOption result (IsNoPairLine line.now) (IsPairLine line.now) }
{
    let text = after(line, b"pair ")?;
    let (object, behind) = until(text, b' ');
    let ty = after(behind, b" ")?;
    let object = number_of(object)?;
    let ty = number_of(ty)?;
    Some((object, ty))
}

/// Parses a path. Returns `None` if the text has another form.
fn path_of(alloc: Global, text: &[u8]) -> Result<Option<Path>, Memory>
    ensures { IfOk result (λ found.
        MatchOption found (IsNoPathText text.now) (IsPathText text.now)) }
{
    let Some(numbers) = after(text, b".") else {
        return Ok(None);
    };
    if numbers.is_empty() {
        return Ok(Some(Path::new(alloc)));
    }
    steps_of(alloc, text)
}

/// Parses the steps of a path. Each step begins with a dot.
fn steps_of(alloc: Global, text: &[u8]) -> Result<Option<Path>, Memory>
    requires { BeginsAt 46 text.now }
    ensures { IfOk result (λ found.
        MatchOption found (IsNoStepsText text.now) (IsStepsText text.now)) }
{
    let mut path = Path::new(alloc);
    let mut rest = text;
    while !rest.is_empty() {
        let Some((step, more)) = first_step(rest) else {
            return Ok(None);
        };
        path.push(step)?;
        rest = more;
    }
    Ok(Some(path))
}

/// Parses the first step of a path. Returns the step and the text after the step.
fn first_step(text: &[u8]) -> Option<(u64, &[u8])>
    ensures { MatchOption result (IsNoStep text.now) (λ p. IsStep text.now p.0 p.1.now) }
{
    let numbers = after(text, b".")?;
    let (digits, rest) = until(numbers, b'.');
    let step = number_of(digits)?;
    Some((step, rest))
}

/// Parses the verdict, which is the text after the entry's number. The pairs are on lines after the
/// first line.
fn verdict_of(alloc: Global, text: &[u8]) -> Result<Option<Section>, Memory>
    ensures { IfOk result (λ found. MatchOption found (IsNoVerdict text.now) (IsVerdict text.now)) }
{
    if text == b"yes".as_slice() {
        return Ok(Some(Section::Pairs(CertificatePairs::new(alloc))));
    }
    if let Some(path) = after(text, b"misfit ") {
        return mismatch_of(alloc, path);
    }
    match after(text, b"clash ") {
        Some(paths) => conflict_of(alloc, paths),
        None => Ok(None),
    }
}

/// Parses the path of a type mismatch.
fn mismatch_of(alloc: Global, path: &[u8]) -> Result<Option<Section>, Memory>
    ensures { IfOk result (λ found.
        MatchOption found (IsNoVerdict (codes "misfit " ++ path.now))
        (IsVerdict (codes "misfit " ++ path.now))) }
{
    match path_of(alloc, path)? {
        Some(path) => Ok(Some(Section::Mismatch(path))),
        None => Ok(None),
    }
}

/// Parses the two paths of an aliasing conflict.
fn conflict_of(alloc: Global, paths: &[u8]) -> Result<Option<Section>, Memory>
    ensures { IfOk result (λ found.
        MatchOption found (IsNoVerdict (codes "clash " ++ paths.now))
        (IsVerdict (codes "clash " ++ paths.now))) }
{
    let (one, behind) = until(paths, b' ');
    let Some(other) = after(behind, b" ") else {
        return Ok(None);
    };
    let Some(first) = path_of(alloc, one)? else {
        return Ok(None);
    };
    match path_of(alloc, other)? {
        Some(second) => Ok(Some(Section::Conflict(first, second))),
        None => Ok(None),
    }
}

/// Parses the first line of the entry with this number. Returns `None` if the line has another
/// form.
pub fn head_of(alloc: Global, line: &[u8], number: u64) -> Result<Option<Section>, Memory>
    ensures { IfOk result (λ found.
        MatchOption found (IsNoHead number line.now) (IsHead number line.now)) }
{
    let Some(text) = after(line, b"value ") else {
        return Ok(None);
    };
    let (digits, behind) = until(text, b' ');
    let Some(verdict) = after(behind, b" ") else {
        return Ok(None);
    };
    match number_of(digits) {
        Some(n) if n == number => verdict_of(alloc, verdict),
        _ => Ok(None),
    }
}
