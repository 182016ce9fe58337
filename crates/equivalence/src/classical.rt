// What regular means under a measure, in the classical notion of its field.
ghost use Rattle.network.specs.Meaning.{Meaning};
ghost use Rattle.measure.specs.Kinds.{kinds};
ghost use Rattle.measure.specs.Bundles.{bundles};
ghost use Rattle.measure.specs.Tally.{tally};
ghost use Rattle.equivalence.specs.Regular.{Table};
ghost use Rattle.equivalence.specs.Classical.{RegularInEach, RegularUnderKinds};
ghost use Rattle.equivalence.specs.Multiplex.{MultiplexRegular, RegularUnderBundles};
ghost use Rattle.equivalence.specs.Equitable.{Equitable, TrueCounts, RegularUnderTally};
ghost use Rattle.equivalence.specs.Vetted.{Vetted, YesExactly};

use super::faults::Fault;
use super::vetting::vet;
use measure::bundles::Bundles;
use measure::interface::Measure;
use measure::kinds::Kinds;
use measure::tally::Tally;
use network::interface::Readable;

/// A measure under which regular is a notion of its field. The `vet` of each proves that notion.
pub trait Classical: Measure {
    ghost notion: { Meaning → Table → Type 0 };

    /// The vet under this measure: yes exactly when the table is as the notion says.
    fn vet<N: Readable>(
        &self,
        network: &N,
        table: &[u8],
    ) -> Result<Option<(usize, usize, usize)>, Fault>
        ensures vetted { let m = N.Readable.meaning network.now in
            Vetted Self.Measure.ops m table.now result }
        ensures classical { let m = N.Readable.meaning network.now in
            YesExactly m table.now result (notion m) };
}

// Yes exactly when the table is a regular equivalence of each of the eight kinds of tie.
impl Classical for Kinds {
    ghost notion = { RegularInEach };

    fn vet<N: Readable>(
        &self,
        network: &N,
        table: &[u8],
    ) -> Result<Option<(usize, usize, usize)>, Fault>
        ensures vetted { let m = N.Readable.meaning network.now in
            Vetted kinds m table.now result }
        ensures classical { let m = N.Readable.meaning network.now in
            YesExactly m table.now result (RegularInEach m) }
        ensures theorem { RegularUnderKinds }
    {
        vet(network, &Kinds, table)
    }
}

// Yes exactly when the table is a multiplex regular equivalence over kinds 0 to 2, each way.
impl Classical for Bundles {
    ghost notion = { MultiplexRegular };

    fn vet<N: Readable>(
        &self,
        network: &N,
        table: &[u8],
    ) -> Result<Option<(usize, usize, usize)>, Fault>
        ensures vetted { let m = N.Readable.meaning network.now in
            Vetted bundles m table.now result }
        ensures classical { let m = N.Readable.meaning network.now in
            YesExactly m table.now result (MultiplexRegular m) }
        ensures theorem { RegularUnderBundles }
    {
        vet(network, &Bundles, table)
    }
}

// Yes exactly when the table is an equitable partition.
impl Classical for Tally {
    ghost notion = { Equitable };

    fn vet<N: Readable>(
        &self,
        network: &N,
        table: &[u8],
    ) -> Result<Option<(usize, usize, usize)>, Fault>
        ensures vetted { let m = N.Readable.meaning network.now in
            Vetted tally m table.now result }
        ensures classical { let m = N.Readable.meaning network.now in
            YesExactly m table.now result (Equitable m) }
        ensures theorem { RegularUnderTally }
        ensures counts { TrueCounts }
    {
        // For its promise alone: at most 128 nodes, so that a count never meets its cap.
        let _few = network.nodes();
        vet(network, &Tally, table)
    }
}
