// Sheets with prices for them.
use crate::answers::Answers;
use crate::batch::Batch;
use crate::case::Case;
use crate::draw::{Scale, one_in};
use crate::kind::Kind;
use crate::prices::Prices;
use crate::report::Report;
use trials::Sequence;

#[derive(Drop)]
pub(crate) struct Offered {
    pub(crate) case: Case,
    pub(crate) prices: Prices,
}

impl Offered {
    pub(crate) fn drawn(
        report: &mut Report,
        numbers: &mut Sequence,
        kind: Kind,
        scale: Scale,
    ) -> anyhow::Result<Offered> {
        let prices = Prices::drawn(report, numbers, kind, scale)?;
        let mut case = Case::opened(report.rt.alloc());
        let count = numbers.next(0, scale.calls.saturating_add(1));
        case.draw_calls(report, numbers, kind, scale, count)?;
        Ok(Offered { case, prices })
    }

    // The same sheet and the same prices in another order: they offer the same bargains.
    pub(crate) fn turned(&self, report: &mut Report) -> anyhow::Result<Offered> {
        let prices = self.prices.turned(report.rt.alloc())?;
        let case = self.case.turned(report)?;
        Ok(Offered { case, prices })
    }

    // Another sheet of the same cost kind: in half of the cases one that offers the same bargains.
    pub(crate) fn other(
        &self,
        report: &mut Report,
        numbers: &mut Sequence,
        scale: Scale,
    ) -> anyhow::Result<Offered> {
        if one_in(numbers, 2) {
            Offered::drawn(report, numbers, self.prices.kind(), scale)
        } else {
            self.turned(report)
        }
    }

    pub(crate) fn print(&self, report: &Report) -> anyhow::Result<()> {
        let rt = report.rt;
        let book = &self.case.book;
        let prices = &self.prices;
        println!(rt; "{book:?}")?;
        println!(rt; "{prices:?}")?;
        Ok(())
    }

    pub(crate) fn answers(&self, report: &Report) -> anyhow::Result<Answers> {
        let heap = report.rt.alloc();
        let batch = Batch::priced(heap, &self.case.book, &self.prices)?;
        Ok(Answers::of(heap, batch)?)
    }
}
