// What the programs print of a run file's replay.
#![tactic(auto)]

mod end;
mod lost;
mod printed;

pub use end::print_end;
pub use printed::{Mode, Output, Printed, ends, print_event};

// Numbers that no refusal has, and one that asks for nothing of its own: what takes a refusal, or what is asked of a worker, takes these too.
#[cfg(test)]
mod tests {
    use super::{Mode, Output, Printed, ends, print_end, print_event};
    use calls::call;
    use replay::Done;
    use runfile::item::Said;
    use step::answers::number;
    use tally::{Tally, count};

    fn refused(number: u32) -> Done<u32> {
        Done {
            position: 5,
            said: Said::Step { worker: 3 },
            answer: Err(number),
        }
    }

    #[test]
    fn seven_asks_for_a_step(rt: HostRuntime) {
        let mut words = [0; 100];
        let mut five = [1; 5];
        assert!(rt; pool::make(&mut words, 0, 1, 1, 1, 2, 1, 0).is_ok());
        assert_eq!(rt; call(&mut words, 7, 0, 0, &mut five), 26);
        assert_eq!(rt; call(&mut words, 0, 0, 9, &mut five), 0);
        assert_eq!(rt; call(&mut words, 7, 0, 0, &mut five), 0);
        assert_eq!(rt; five, [0; 5]);
        assert_eq!(rt; words[6], 1);
    }

    #[test]
    fn any_number_is_told(rt: HostRuntime) {
        assert_eq!(rt; number::<u32>(Err(77)), 77);
        assert_eq!(rt; count(Tally::default(), refused(77)).refused, 1);
        assert_eq!(rt; count(Tally::default(), refused(2)).takes, 1);
        let line = print_event(Mode::Listing, Tally::default(), refused(77));
        assert!(rt; matches!(line, Output::Line(e) if e.number == 77));
        let last = print_end(&[], Mode::Listing, Tally::default(), 9, Some(77));
        assert!(rt; matches!(last, Printed::Last(e) if e.number == 77));
        let last = print_end(&[], Mode::Summing, Tally::default(), 9, Some(77));
        assert!(rt; matches!(last, Printed::Totals(s) if s.fault == Some(77)));
        assert!(rt; ends(Output::End(Some(77))));
    }
}
