ghost use Rattle.road_model.specs.declared.answer.Plan.{Plan};
ghost use Rattle.road_model.specs.declared.answer.Query.{Query};
ghost use Rattle.road_model.specs.Graph.{Graph};
ghost use Rattle.road_model.specs.File.{IsWithinLimits};
ghost use Rattle.road_model.specs.Answers.{IsAnswer};
ghost use Rattle.certificate_text.specs.declared.certificate.Certificate.{Certificate};
ghost use Rattle.recheck.specs.Checks.{IsQuery, Certifies};
ghost use Rattle.certify.specs.Written.{IsWritten};

/// A certificate that says what is written for a query's answer passes each check.
pub fn what_is_written_certifies()
    ensures { (g : Graph) (q : Query) (p : Plan) (c : Certificate) → IsWithinLimits g → IsQuery g q →
        IsAnswer g q p → IsWritten g q p c → Certifies g c }
{}
