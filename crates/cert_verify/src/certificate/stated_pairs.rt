//! The pairs of a certificate entry, with the heap and the table to which they refer.

ghost use Rattle.check_heap.specs.scan.TypeRows.{table_in};
ghost use Rattle.cert_verify.specs.certificate.Testing.{AreAllThere};

use cert_format::CertificatePairs;
use check_heap::scan::Fitting;
use marshal_heap::heap::Heap;

/// Pairs of objects of a heap and types of a table. The objects and types of all pairs exist.
#[derive(Clone, Copy)]
pub struct StatedPairs<'a> {
    pub heap: &'a Heap,
    pub fitting: Fitting<'a>,
    pub pairs: &'a CertificatePairs,
    pub ghost there: { AreAllThere (table_in fitting) heap.now pairs.now },
}
