//! Runs the survey in its refusals and frames, and the layouts of the sheet.
#![tactic(auto)]

#[cfg(test)]
mod tests {
    use board::place::Place;
    use chart::slots::chart_of;
    use fault::Fault;
    use fault::layer::Layer;
    use fault::refusal::Refusal;
    use sheet::layout::{lay_out, lay_out_refusal};
    use std::process::Abort;
    use std::test::Fail;
    use survey::faults::SurveyFault;
    use survey::log::survey_log;
    use survey::map::survey_map;
    use sweep::sweep::Record;

    fn refused(rt: &impl Abort, answer: Result<usize, SurveyFault>, refusal: Refusal) {
        assert_eq!(rt; answer.expect_err(rt, "a refusal").refusal(), refusal);
    }

    // 4,095 slots are refused with 13, 4,096 are a chart
    #[test]
    fn chart_sizes(rt: HostRuntime) -> Result<(), Fail> {
        let mut tour = [0u8; 16];
        let mut sheet = [0u8; 64];
        let mut chart = chart_of(rt.alloc())?;
        refused(
            &rt,
            survey_map(
                b"S\n",
                0,
                &mut chart.as_mut_slice()[..4095],
                &mut tour,
                &mut sheet,
            ),
            Refusal::new(13, Layer::Chart, 4095),
        );
        assert!(rt; sheet == [0u8; 64]);
        let length = survey_map(b"S\n", 0, chart.as_mut_slice(), &mut tour, &mut sheet)?;
        assert_eq!(rt; length, 26);
        Ok(())
    }

    // the mirrored single megacell; frame 8 is none, and is refused before the map
    #[test]
    fn frames(rt: HostRuntime) -> Result<(), Fail> {
        let mut tour = [0u8; 16];
        let mut sheet = [0u8; 64];
        let mut chart = chart_of(rt.alloc())?;
        survey_map(b"S\n", 4, chart.as_mut_slice(), &mut tour, &mut sheet)?;
        assert!(rt; sheet.starts_with(b"START 1 62\nENWS\nHOME 4 2 1\n"));
        refused(
            &rt,
            survey_map(b"", 8, chart.as_mut_slice(), &mut tour, &mut sheet),
            Refusal::new(1, Layer::Survey, 0),
        );
        Ok(())
    }

    // a sheet of 25 bytes has no room for 26, and the tour is driven all the same
    #[test]
    fn short_sheet(rt: HostRuntime) -> Result<(), Fail> {
        let mut tour = [b'-'; 5];
        let mut sheet = [b'-'; 25];
        let mut chart = chart_of(rt.alloc())?;
        refused(
            &rt,
            survey_map(b"S\n", 0, chart.as_mut_slice(), &mut tour, &mut sheet),
            Refusal::new(17, Layer::Sheet, 26),
        );
        assert!(rt; sheet == [b'-'; 25]);
        assert!(rt; tour == *b"NWSE-");
        Ok(())
    }

    // a tour buffer that is full before home: the sheet says STOPPED
    #[test]
    fn stopped(rt: HostRuntime) -> Result<(), Fail> {
        let mut tour = [0u8; 3];
        let mut sheet = [0u8; 64];
        let mut chart = chart_of(rt.alloc())?;
        survey_map(b"S.\n", 0, chart.as_mut_slice(), &mut tour, &mut sheet)?;
        assert!(rt; sheet.starts_with(b"START 1 1\nEEN\nSTOPPED 3 3 2\n"));
        Ok(())
    }

    // a log is checked before the chart
    #[test]
    fn log_before_chart(rt: HostRuntime) {
        let mut tour = [0u8; 3];
        let mut sheet = [0u8; 64];
        let mut chart = [None, Some(7u16)];
        refused(
            &rt,
            survey_log(&[0u8; 8], 0, &mut chart, &mut tour, &mut sheet),
            Refusal::new(12, Layer::Log, 0),
        );
    }

    // 65 letters take two lines; a byte that is no letter is refused with its offset; and a refusal's line
    #[test]
    fn layouts(rt: HostRuntime) -> Result<(), Fail> {
        let mut sheet = [0u8; 128];
        let ending = Record {
            moves: 65,
            looks: 10,
            megacells: 1024,
            home: false,
        };
        let start = Place::new(63, 0).expect(&rt, "a place");
        assert_eq!(rt;
            lay_out(&mut sheet, start, &[b'N'; 65], ending)?,
            11 + 67 + 19
        );
        assert!(rt;
            sheet[74] == b'N' && sheet[75] == b'\n' && sheet[76] == b'N' && sheet[77] == b'\n'
        );
        let fault = lay_out(&mut sheet, start, b"NEx", ending).expect_err(&rt, "a refusal");
        assert_eq!(rt; fault.number(), 16);
        assert_eq!(rt; fault.place(), 2);
        assert_eq!(rt; lay_out_refusal(&mut sheet, &fault)?, 13);
        assert!(rt; sheet.starts_with(b"REFUSED 16 2\n"));
        Ok(())
    }
}
