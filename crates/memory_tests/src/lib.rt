// What the calls do with memory that a host lends, and what they leave of it where it is too short.
#![tactic(auto)]

#[cfg(test)]
mod tests {
    use book::{Call, Event};
    use list::{List, Memory};
    use lock::Answer;
    use runner::run_schedule;
    use script::{Kind, Schedule, read_schedule, round_trip};
    use std::test::Fail;
    use text::Fault;
    use transcript::{Ending, Transcript, write_fault, write_transcript};

    const STEP: Event = Event {
        worker: 9,
        call: Call::Step,
    };

    const TWO: &[u8] = b"lock=mcs\nworker=0\ncall=lock\nworker=0\ncall=step\n";

    const THREE: &[u8] =
        b"lock=mcs\nworker=0\ncall=lock\nworker=0\ncall=step\nworker=1\ncall=lock\n";

    #[test]
    fn full_list(rt: HostRuntime) -> Result<(), Fail> {
        let mut memory = [7u8; 2];
        let mut list = List::new(&mut memory);
        list.push(1)?;
        list.push(2)?;
        assert_eq!(rt; list.push(3).err().map(Memory::number), Some(16));
        assert_eq!(rt; list.len(), 2);
        assert!(rt; memory == [1, 2]);
        Ok(())
    }

    // The list is emptied by an accepted text and left by a refused one.
    #[test]
    fn short_events(rt: HostRuntime) -> Result<(), Fail> {
        let mut memory = [STEP; 2];
        let mut events = List::new(&mut memory);
        events.push(STEP)?;
        let fault = read_schedule(THREE, &mut events).err();
        assert_eq!(rt; fault.map(Fault::number), Some(13));
        assert_eq!(rt; fault.map(Fault::line), Some(6));
        assert_eq!(rt; events.len(), 1);
        assert_eq!(rt; read_schedule(TWO, &mut events)?, Kind::Mcs);
        assert_eq!(rt; events.len(), 2);
        Ok(())
    }

    #[test]
    fn short_answers(rt: HostRuntime) -> Result<(), Fail> {
        let mut memory = [Ok(Answer::Found); 1];
        let mut answers = List::new(&mut memory);
        let refusal = run_schedule(Kind::Clh, &[STEP, STEP], &mut answers).err();
        assert_eq!(rt; refusal.map(Memory::number), Some(16));
        assert_eq!(rt; answers.len(), 0);
        run_schedule(Kind::Clh, &[STEP], &mut answers)?;
        assert_eq!(rt; answers.len(), 1);
        Ok(())
    }

    #[test]
    fn short_fault(rt: HostRuntime) -> Result<(), Fail> {
        let mut memory = [b'-'; 16];
        let fault = Fault::Key { line: 3 };
        let refusal = write_fault(fault, &mut memory[..15]).err();
        assert_eq!(rt; refusal.map(Memory::number), Some(16));
        assert!(rt; memory == [b'-'; 16]);
        assert_eq!(rt; write_fault(fault, &mut memory)?, 16);
        assert!(rt; &memory == b"fault=11\nline=3\n");
        Ok(())
    }

    #[test]
    fn short_transcript(rt: HostRuntime) -> Result<(), Fail> {
        let mut memory = [b'-'; 48];
        let transcript = Transcript {
            answers: &[Ok(Answer::Entered)],
            ending: Ending {
                inside: Some(9),
                chests: 0,
                grams: 0,
            },
        };
        let refusal = write_transcript(&transcript, &mut memory[..44]).err();
        assert_eq!(rt; refusal.map(Memory::number), Some(16));
        assert!(rt; memory == [b'-'; 48]);
        assert_eq!(rt; write_transcript(&transcript, &mut memory)?, 45);
        assert!(rt; &memory == b"answer=20\ninside=9\nmisuse=0\nchests=0\ngrams=0\n---");
        Ok(())
    }

    #[test]
    fn there_and_back(rt: HostRuntime) -> Result<(), Fail> {
        let events = [STEP; 2];
        let schedule = Schedule {
            kind: Kind::Array,
            events: &events,
        };
        let mut memory = [0u8; 64];
        let mut room = [STEP; 2];
        let mut list = List::new(&mut room);
        let kind = round_trip(&schedule, &mut memory, &mut list)??;
        assert_eq!(rt; kind, Kind::Array);
        assert_eq!(rt; list.len(), 2);
        Ok(())
    }
}
