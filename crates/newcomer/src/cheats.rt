ghost use Rattle.newcomer.specs.Cheats.{ShutOut, LetsNobodyIn, LetsEverybodyIn, DeniesEachUnlock, MakesUpDistances, EntersAtOnce, NeverRefuses};

// Says only that no lock keeps the rules and cheats in one of these ways, whatever its states S are.
pub fn cheats_shut_out<S>()
    ensures nobody { ShutOut {S = S} LetsNobodyIn }
    ensures everybody { ShutOut {S = S} LetsEverybodyIn }
    ensures denied { ShutOut {S = S} DeniesEachUnlock }
    ensures distances { ShutOut {S = S} MakesUpDistances }
    ensures at_once { ShutOut {S = S} EntersAtOnce }
    ensures unrefused { ShutOut {S = S} NeverRefuses }
{}
